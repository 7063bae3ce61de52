//! Nodes: their attributes, and what they hold by their kind.
ghost use Rattle.std.specs.FinMap.Entries.{is_sorted};
ghost use Rattle.std.specs.List.Sorted.{IsPermutation};
ghost use Rattle.std.specs.Prelude.{◌≡◌, [], true, ◌+◌, ◌<◌, ◌^◌, find, map, length, nat_eq, not, take, drop, IsSome, IsOk, IfOk, OnOk, OnErr, option_copied, option_map};
ghost use Rattle.vt_spec.specs.declared.attributes.Kind.TheVariants.{Dir, File};
ghost use Rattle.vt_spec.specs.Rights.{is_directory};
ghost use Rattle.vt_spec.specs.Language.Changes.{content_with_mark, content_with_parent, without_entry};
ghost use Rattle.vt_spec.specs.FileTree.{opaque_of};
ghost use Rattle.vt_spec.specs.Lists.{is_empty_list};
ghost use Rattle.vt_spec.specs.Machine.Descriptors.{overwritten};
ghost use Rattle.vt_spec.specs.Tree.{name_cmp, kind_of, entries_of, bytes_of, parent_of, entry_named, new_directory, with_entries, with_entry, with_bytes};
ghost use Rattle.vt_spec.specs.Tree.Content.{Regular, Symlink, Whiteout};
ghost use Rattle.vt_node.specs.Listed.{HasOneName};
ghost use Rattle.vt_node.specs.Ranks.{name_ranked, rank_among};

use crate::{Attr, DirectoryEntries, EntryRoom, Kind, NodeId};
use std::alloc::{AllocError, Global};
use std::marker::Model;

/// The most bytes of a file, 1 MiB: RLIMIT_FSIZE of setrlimit(2).
pub const LARGEST_FILE: usize = 1_048_576;

/// A node of a tree: an inode without its number.
#[derive(Debug, Drop)]
pub struct Node {
    attr: Attr,
    content: Content,
}

// What a node holds.
#[derive(Debug, Drop)]
enum Content {
    Directory {
        parent: NodeId,
        entries: DirectoryEntries,
        opaque: bool,
    },
    Regular {
        bytes: Vec<u8>,
    },
    Symlink {
        text: Vec<u8>,
    },
    Whiteout,
}

impl Model for Node {
    ghost use Rattle.std.specs.Prelude.{ℕ};
    ghost use Rattle.vt_spec.specs.Tree.{Node as Inode};

    ghost Value = { Inode ℕ };

    ghost use Rattle.vt_node.specs.NodeView.{content_of};

    ghost view = { λ n. record { attr = n.attr; content = content_of n.content } };
}

impl Node {
    /// An empty directory below this parent; the root is its own parent. It does not allocate.
    pub fn new_directory(alloc: Global, attr: Attr, parent: NodeId) -> Self
        ensures { result ≡ record { attr = attr; content = new_directory parent } }
    {
        Node {
            attr,
            content: Content::Directory {
                parent,
                entries: DirectoryEntries::new(alloc),
                opaque: false,
            },
        }
    }

    /// A regular file with these bytes.
    pub fn new_file(attr: Attr, bytes: Vec<u8>) -> Self
        ensures { result ≡ record { attr = attr; content = Regular bytes.items } }
    {
        Node {
            attr,
            content: Content::Regular { bytes },
        }
    }

    /// A symlink with this text.
    pub fn new_link(attr: Attr, text: Vec<u8>) -> Self
        ensures { result ≡ record { attr = attr; content = Symlink text.items } }
    {
        Node {
            attr,
            content: Content::Symlink { text },
        }
    }

    /// A whiteout, the character device 0/0 of an overlay's upper layer.
    pub fn new_whiteout(attr: Attr) -> Self
        ensures { result ≡ record { attr = attr; content = Whiteout } }
    {
        Node {
            attr,
            content: Content::Whiteout,
        }
    }

    /// Its owner, group and mode.
    pub fn attr(&self) -> Attr
        ensures { result ≡ self.now.attr }
    {
        self.attr
    }

    /// Whether it is a directory with the mark that hides what lies below it in an overlay: overlayfs, "Opaque
    /// directories".
    pub fn is_opaque(&self) -> bool
        ensures { result ≡ opaque_of self.now.content }
    {
        match &self.content {
            Content::Directory { opaque, .. } => *opaque,
            _ => false,
        }
    }

    /// Its kind.
    pub fn kind(&self) -> Kind
        ensures { result ≡ kind_of self.now.content }
    {
        match &self.content {
            Content::Directory { .. } => Kind::Dir,
            Content::Regular { .. } => Kind::File,
            Content::Symlink { .. } => Kind::Symlink,
            Content::Whiteout => Kind::White,
        }
    }

    /// Whether it is a directory.
    pub fn is_directory(&self) -> bool
        ensures { result ≡ is_directory (kind_of self.now.content) }
    {
        matches!(&self.content, Content::Directory { .. })
    }

    /// The number that a name leads to, in a directory.
    pub fn entry(&self, name: &[u8]) -> Option<NodeId>
        ensures { result ≡ entry_named name.now (entries_of self.now.content) }
    {
        match &self.content {
            Content::Directory { entries, .. } => entries.entry(name),
            _ => None,
        }
    }

    /// The parent of a directory; of any other node `own`, which is to be its number.
    pub fn parent(&self, own: NodeId) -> NodeId
        ensures { result ≡ parent_of own self.now.content }
    {
        match &self.content {
            Content::Directory { parent, .. } => *parent,
            _ => own,
        }
    }

    /// The bytes of a file, or the text of a symlink; any other node has none.
    pub fn bytes(&self) -> &[u8]
        ensures { result.now ≡ bytes_of self.now.content }
    {
        match &self.content {
            Content::Regular { bytes } => bytes,
            Content::Symlink { text } => text,
            _ => &[],
        }
    }

    /// At most `size` bytes of a file, or of a symlink's text, from an offset on: pread(2). Past the end there are
    /// none.
    pub fn bytes_part(&self, offset: usize, size: usize) -> &[u8]
        ensures { result.now ≡ take size (drop offset (bytes_of self.now.content)) }
    {
        let bytes = self.bytes();
        let start = offset.min(bytes.len());
        let rest = &bytes[start..];
        let most = size.min(rest.len());
        &rest[..most]
    }

    /// How many entries a directory has; any other node has none.
    pub fn entry_count(&self) -> usize
        ensures { result ≡ length (entries_of self.now.content) }
    {
        match &self.content {
            Content::Directory { entries, .. } => entries.len(),
            _ => 0,
        }
    }

    /// Whether it is a directory with entries.
    pub fn is_nonempty(&self) -> bool
        ensures { result ≡ not (is_empty_list (entries_of self.now.content)) }
    {
        match &self.content {
            Content::Directory { entries, .. } => !entries.is_empty(),
            _ => false,
        }
    }

    /// The name in it that leads to a number which has one name at most; what is no directory has none.
    pub fn name_of(&self, id: NodeId) -> Option<&[u8]>
        requires { HasOneName id (entries_of self.now.content) }
        ensures { option_copied result
            ≡ option_map (λ entry. entry.0) (find (λ entry. nat_eq id entry.1) (entries_of self.now.content)) }
    {
        match &self.content {
            Content::Directory { entries, .. } => entries.name_of(id),
            _ => None,
        }
    }

    /// The rank of a name of a directory: how many smaller ones lead to the same number. In any other node it is 0. It
    /// does not allocate.
    pub fn rank_of(&self, name: &[u8], id: NodeId) -> usize
        ensures { result ≡ rank_among (entries_of self.now.content) name.now id }
    {
        match &self.content {
            Content::Directory { entries, .. } => entries.rank_of(name, id),
            _ => 0,
        }
    }

    /// The name of a rank among the names of a directory that lead to a number. Any other node has none. It does not
    /// allocate.
    pub fn name_ranked(&self, id: NodeId, rank: usize) -> Option<&[u8]>
        ensures { option_copied result ≡ name_ranked (entries_of self.now.content) id rank }
    {
        match &self.content {
            Content::Directory { entries, .. } => entries.name_ranked(id, rank),
            _ => None,
        }
    }

    /// Copies of the names of a directory, in the order of their bytes; any other node has none.
    ///
    /// It fails only if an allocation does, and no names need none.
    pub fn names(&self, alloc: Global) -> Result<Vec<Vec<u8>>, AllocError>
        ensures ok { IfOk result (λ names.
            map (λ name. name.items) names.items ≡ map (λ entry. entry.0) (entries_of self.now.content)) }
        ensures empty { entries_of self.now.content ≡ [] → IsOk result }
    {
        match &self.content {
            Content::Directory { entries, .. } => entries.names(alloc),
            _ => Ok(Vec::new(alloc)),
        }
    }

    /// The names of a directory, each once, in no order; any other node has none. It does not allocate.
    pub fn kept_names(&self) -> &[Vec<u8>]
        ensures { IsPermutation (map (λ name. name.items) result.now)
            (map (λ entry. entry.0) (entries_of self.now.content)) }
    {
        match &self.content {
            Content::Directory { entries, .. } => entries.kept_names(),
            _ => &[],
        }
    }

    /// Puts an entry into a directory; any other node stays as it is.
    ///
    /// It fails only if an allocation does, and only a new name of a directory allocates.
    pub fn insert_entry(&mut self, name: Vec<u8>, id: NodeId) -> Result<(), AllocError>
        ensures ok { OnOk result (self.new ≡ record {
          attr = self.old.attr;
          content = with_entries self.old.content (with_entry name.items id (entries_of self.old.content));
        }) }
        ensures directory { OnErr result (kind_of self.old.content ≡ Dir) }
        ensures present { IsSome (entry_named name.items (entries_of self.old.content)) → IsOk result }
        ensures in_order { is_sorted name_cmp (entries_of self.old.content) ≡ true }
        ensures err { OnErr result (self.new ≡ self.old) }
    {
        match &mut self.content {
            Content::Directory { entries, .. } => entries.insert(name, id),
            _ => Ok(()),
        }
    }

    /// Puts an entry into a directory, for a caller that has made room for one more; any other node stays as it is. It
    /// does not allocate.
    pub fn place_entry(&mut self, name: Vec<u8>, id: NodeId, room: &mut EntryRoom)
        requires { length (entries_of self.old.content) < room.old }
        ensures entry { self.new ≡ record {
          attr = self.old.attr;
          content = with_entries self.old.content (with_entry name.items id (entries_of self.old.content));
        } }
        ensures in_order { is_sorted name_cmp (entries_of self.old.content) ≡ true }
    {
        if let Content::Directory { entries, .. } = &mut self.content {
            entries.place(name, id, room);
        }
    }

    /// Takes an entry out of a directory, if it exists; any other node stays as it is. It does not allocate.
    pub fn remove_entry(&mut self, name: &[u8])
        ensures { self.new ≡ record {
          attr = self.old.attr;
          content = with_entries self.old.content (without_entry name.now (entries_of self.old.content));
        } }
    {
        if let Content::Directory { entries, .. } = &mut self.content {
            entries.remove(name);
        }
    }

    /// Sets the parent of a directory; any other node stays as it is. It does not allocate.
    pub fn set_parent(&mut self, parent: NodeId)
        ensures { self.new ≡ record { attr = self.old.attr; content = content_with_parent parent self.old.content } }
    {
        if let Content::Directory { parent: old, .. } = &mut self.content {
            *old = parent;
        }
    }

    /// Marks a directory opaque, or takes its mark away; any other node stays as it is. It does not allocate.
    pub fn set_opaque(&mut self, opaque: bool)
        ensures { self.new ≡ record { attr = self.old.attr; content = content_with_mark opaque self.old.content } }
    {
        if let Content::Directory { opaque: old, .. } = &mut self.content {
            *old = opaque;
        }
    }

    /// Sets its owner, group and mode. It does not allocate.
    pub fn set_attr(&mut self, attr: Attr)
        ensures { self.new ≡ record { attr = attr; content = self.old.content } }
    {
        self.attr = attr;
    }

    /// Writes bytes into a file from an offset on, and zeros into a gap before them: pwrite(2). Any other node stays as
    /// it is. It fails only if an allocation does, and only a file that gets longer allocates.
    pub fn write_at(&mut self, offset: usize, bytes: &[u8]) -> Result<(), AllocError>
        requires { offset + length bytes.now < 2 ^ 64 }
        ensures ok { OnOk result (self.new ≡ record {
          attr = self.old.attr;
          content = with_bytes self.old.content (overwritten offset bytes.now (bytes_of self.old.content));
        }) }
        ensures file { OnErr result (kind_of self.old.content ≡ File) }
        ensures longer { OnErr result (length (bytes_of self.old.content) < offset + length bytes.now) }
        ensures err { OnErr result (self.new ≡ self.old) }
    {
        match &mut self.content {
            Content::Regular { bytes: old } => overwrite(old, offset, bytes),
            _ => Ok(()),
        }
    }

    /// Sets the whole content of a file; any other node stays as it is. It does not allocate.
    pub fn set_bytes(&mut self, bytes: Vec<u8>)
        ensures { self.new ≡ record { attr = self.old.attr; content = with_bytes self.old.content bytes.items } }
    {
        if let Content::Regular { bytes: old } = &mut self.content {
            *old = bytes;
        }
    }
}

// Writes bytes into others from an offset on.
fn overwrite(old: &mut Vec<u8>, offset: usize, bytes: &[u8]) -> Result<(), AllocError>
    requires { offset + length bytes.now < 2 ^ 64 }
    ensures ok { OnOk result (old.new.items ≡ overwritten offset bytes.now old.old.items) }
    ensures longer { OnErr result (length old.old.items < offset + length bytes.now) }
    ensures err { OnErr result (old.new.items ≡ old.old.items) }
{
    let end = offset + bytes.len();
    let longer = old.len().max(end);
    old.resize(longer, 0)?;
    old[offset..end].copy_from_slice(bytes);
    Ok(())
}
