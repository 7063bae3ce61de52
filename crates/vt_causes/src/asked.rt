//! The paths of a call.
use vt_options::LayerOptions;
use vt_request::{
    Call, Creation, DescriptorCall, LookCall, MakeCall, MountCall, RemoveCall, TaskCall, WriteCall,
};

/// What a call takes a path's last word for.
#[derive(Clone, Copy)]
pub enum Last {
    /// An object, a final symlink followed.
    Object,
    /// An object; a symlink is not followed.
    Link,
    /// A name, which may be missing; a symlink is not followed, and no mount entered.
    Name,
    /// A file that may be made, a final symlink followed.
    File,
    /// Where a mount is put: over all mounts that stand there.
    Destination,
}

/// A path of a call.
#[derive(Clone, Copy)]
pub struct PathAsked<'a> {
    pub text: &'a [u8],
    pub last: Last,
}

// What a path's last word is taken for that is not to be followed: a slash behind a symlink follows it.
fn unfollowed(path: &[u8]) -> Last {
    if path.last() == Some(&b'/') {
        Last::Object
    } else {
        Last::Link
    }
}

// The path of a call that looks at an object.
fn path_looked_at<'a>(call: &LookCall<'a>) -> Option<PathAsked<'a>> {
    let (text, last) = match call {
        LookCall::Ls { path }
        | LookCall::Stat { path }
        | LookCall::Read { path }
        | LookCall::Exec { path } => (*path, Last::Object),
        LookCall::Lstat { path } | LookCall::Readlink { path } => (*path, unfollowed(path)),
        LookCall::Pread { .. } | LookCall::ListMounts => return None,
    };
    Some(PathAsked { text, last })
}

// The path of a call that is walked first, of those that change names and files.
fn path_changed<'a>(call: &Call<'a>) -> Option<PathAsked<'a>> {
    let (text, last) = match call {
        Call::Make(
            MakeCall::Mkdir { path, .. }
            | MakeCall::Symlink { path, .. }
            | MakeCall::Whiteout { path },
        ) => (*path, Last::Name),
        Call::Make(MakeCall::Link { old, .. }) => (*old, unfollowed(old)),
        Call::Remove(
            RemoveCall::Unlink { path }
            | RemoveCall::Rmdir { path }
            | RemoveCall::Rename { old: path, .. },
        ) => (*path, Last::Name),
        Call::Write(WriteCall::Write { path, .. }) => (*path, Last::File),
        Call::Write(
            WriteCall::Chmod { path, .. }
            | WriteCall::Chown { path, .. }
            | WriteCall::Opaque { path, .. },
        ) => (*path, Last::Object),
        _ => return None,
    };
    Some(PathAsked { text, last })
}

// The path of a call of a task or of mounts that is walked first.
fn path_entered<'a>(call: &Call<'a>) -> Option<PathAsked<'a>> {
    let (text, last) = match call {
        Call::Descriptor(DescriptorCall::Open { path, creation, .. }) => (
            *path,
            match creation {
                Creation::Never => Last::Object,
                Creation::OrCreate(_) => Last::File,
                Creation::Exclusive(_) => Last::Name,
            },
        ),
        Call::Task(TaskCall::Chdir { path } | TaskCall::Chroot { path }) => (*path, Last::Object),
        Call::Mount(MountCall::Plain { path, .. } | MountCall::Overlay { path, .. }) => {
            (*path, Last::Destination)
        }
        Call::Mount(
            MountCall::Bind { source: path, .. }
            | MountCall::Move { source: path, .. }
            | MountCall::Umount { path }
            | MountCall::Lazy { path }
            | MountCall::Pivot { new: path, .. }
            | MountCall::Remount { path, .. }
            | MountCall::SetType { path, .. },
        ) => (*path, Last::Object),
        _ => return None,
    };
    Some(PathAsked { text, last })
}

/// The path of a call that is walked first, if it has one. Those in the options of an overlay are not among them.
pub fn first_path<'a>(call: &Call<'a>) -> Option<PathAsked<'a>> {
    match call {
        Call::Look(call) => path_looked_at(call),
        Call::Make(_) | Call::Remove(_) | Call::Write(_) => path_changed(call),
        Call::Descriptor(_) | Call::Task(_) | Call::Mount(_) => path_entered(call),
    }
}

/// The path of a call that is walked second, if it has two.
pub fn second_path<'a>(call: &Call<'a>) -> Option<PathAsked<'a>> {
    let (text, last) = match call {
        Call::Make(MakeCall::Link { new, .. }) => (*new, Last::Name),
        Call::Remove(RemoveCall::Rename { new, .. }) => (*new, Last::Name),
        Call::Mount(MountCall::Bind { path, .. } | MountCall::Move { path, .. }) => {
            (*path, Last::Destination)
        }
        Call::Mount(MountCall::Pivot { put, .. }) => (*put, Last::Destination),
        _ => return None,
    };
    Some(PathAsked { text, last })
}

/// The options of the overlay that a call is to mount, or a text that is none, if it is such a call.
pub fn overlay_options<'b, 'a>(
    call: &'b Call<'a>,
) -> Option<&'b Result<LayerOptions<'a>, &'a [u8]>> {
    match call {
        Call::Mount(MountCall::Overlay { options, .. }) => Some(options),
        _ => None,
    }
}
