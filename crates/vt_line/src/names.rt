//! The names of the calls.
ghost use Rattle.std.specs.Prelude.{◌≡◌, ◌++◌, None, false, IfSome};
ghost use Rattle.vt_spec.specs.Language.Script.{file_call_names, marking_call_names, mounting_call_names, pivoting_call_names};

use vt_request::{Call, LookCall, MakeCall, MountCall, RemoveCall, TaskCall};

/// A call that is given a path alone.
#[derive(Clone, Copy)]
pub enum PathCall {
    Ls,
    Stat,
    Lstat,
    Readlink,
    Read,
    Exec,
    Unlink,
    Rmdir,
    Chdir,
    Chroot,
    Umount,
    Lazy,
    Whiteout,
}

impl PathCall {
    ghost use Rattle.vt_request.specs.Requests.{call_of};
    ghost use Rattle.vt_line.specs.Names.{path_call};

    /// The call with its path.
    #[inline(always)]
    pub fn call(self, path: &[u8]) -> Call<'_>
        ensures { call_of result ≡ path_call self path.now }
    {
        match self {
            PathCall::Ls => Call::Look(LookCall::Ls { path }),
            PathCall::Stat => Call::Look(LookCall::Stat { path }),
            PathCall::Lstat => Call::Look(LookCall::Lstat { path }),
            PathCall::Readlink => Call::Look(LookCall::Readlink { path }),
            PathCall::Read => Call::Look(LookCall::Read { path }),
            PathCall::Exec => Call::Look(LookCall::Exec { path }),
            PathCall::Unlink => Call::Remove(RemoveCall::Unlink { path }),
            PathCall::Rmdir => Call::Remove(RemoveCall::Rmdir { path }),
            PathCall::Chdir => Call::Task(TaskCall::Chdir { path }),
            PathCall::Chroot => Call::Task(TaskCall::Chroot { path }),
            PathCall::Umount => Call::Mount(MountCall::Umount { path }),
            PathCall::Lazy => Call::Mount(MountCall::Lazy { path }),
            PathCall::Whiteout => Call::Make(MakeCall::Whiteout { path }),
        }
    }
}

/// A call that is given two paths, or a text and a path.
#[derive(Clone, Copy, PartialEq, Eq)]
pub enum PairCall {
    Symlink,
    Link,
    Rename,
    Bind,
    Rbind,
    Move,
}

impl PairCall {
    ghost use Rattle.vt_request.specs.Requests.{call_of};
    ghost use Rattle.vt_line.specs.Names.{pair_call};

    /// The call with its two words.
    #[inline(always)]
    pub fn call<'a>(self, first: &'a [u8], second: &'a [u8]) -> Call<'a>
        ensures { call_of result ≡ pair_call self first.now second.now }
    {
        match self {
            PairCall::Symlink => Call::Make(MakeCall::Symlink {
                text: first,
                path: second,
            }),
            PairCall::Link => Call::Make(MakeCall::Link {
                old: first,
                new: second,
            }),
            PairCall::Rename => Call::Remove(RemoveCall::Rename {
                old: first,
                new: second,
            }),
            PairCall::Bind | PairCall::Rbind => Call::Mount(MountCall::Bind {
                source: first,
                path: second,
                recursive: self == PairCall::Rbind,
            }),
            PairCall::Move => Call::Mount(MountCall::Move {
                source: first,
                path: second,
            }),
        }
    }
}

/// A call, without its words.
#[derive(Clone, Copy)]
pub enum CallName {
    Path(PathCall),
    Pair(PairCall),
    Write,
    Mkdir,
    Chmod,
    Chown,
    Opaque,
    Open,
    Pread,
    Pwrite,
    Close,
    Umask,
    Drop,
    Fork,
    Exit,
    Unshare,
    Setns,
    Mount,
    Remount,
    SetType,
    SetTypeRecursive,
    Mounts,
    PivotRoot,
}

impl CallName {
    ghost use Rattle.std.specs.List.{list_any};
    ghost use Rattle.std.specs.Str.{bytes_eq};
    ghost use Rattle.vt_line.specs.Names.{handle_call_names, name_call_names, name_text};

    /// The call that a text names.
    pub fn from_text(text: &[u8]) -> Option<Self>
        ensures named { IfSome result (λ name. text.now ≡ name_text name) }
        ensures unknown { result ≡ None → list_any (bytes_eq text.now)
            (file_call_names ++ mounting_call_names ++ marking_call_names ++ pivoting_call_names) ≡ false }
    {
        if let Some(name) = CallName::on_names(text) {
            return Some(name);
        }
        if let Some(name) = CallName::on_files(text) {
            return Some(name);
        }
        if let Some(name) = CallName::on_mounts(text) {
            return Some(name);
        }
        if let Some(name) = CallName::on_marks(text) {
            return Some(name);
        }
        CallName::on_root_mounts(text)
    }

    // The call on a name of a directory that a text names.
    fn on_names(text: &[u8]) -> Option<Self>
        ensures named { IfSome result (λ name. text.now ≡ name_text name) }
        ensures unknown { result ≡ None → list_any (bytes_eq text.now) name_call_names ≡ false }
    {
        Some(match text {
            b"ls" => CallName::Path(PathCall::Ls),
            b"stat" => CallName::Path(PathCall::Stat),
            b"lstat" => CallName::Path(PathCall::Lstat),
            b"readlink" => CallName::Path(PathCall::Readlink),
            b"read" => CallName::Path(PathCall::Read),
            b"write" => CallName::Write,
            b"exec" => CallName::Path(PathCall::Exec),
            b"mkdir" => CallName::Mkdir,
            b"symlink" => CallName::Pair(PairCall::Symlink),
            b"link" => CallName::Pair(PairCall::Link),
            b"unlink" => CallName::Path(PathCall::Unlink),
            b"rmdir" => CallName::Path(PathCall::Rmdir),
            b"rename" => CallName::Pair(PairCall::Rename),
            _ => return None,
        })
    }

    // The call on a file, or of a task on itself, that a text names.
    fn on_files(text: &[u8]) -> Option<Self>
        ensures named { IfSome result (λ name. text.now ≡ name_text name) }
        ensures unknown { result ≡ None → list_any (bytes_eq text.now) handle_call_names ≡ false }
    {
        Some(match text {
            b"chmod" => CallName::Chmod,
            b"chown" => CallName::Chown,
            b"open" => CallName::Open,
            b"pread" => CallName::Pread,
            b"pwrite" => CallName::Pwrite,
            b"close" => CallName::Close,
            b"umask" => CallName::Umask,
            b"drop" => CallName::Drop,
            b"fork" => CallName::Fork,
            b"exit" => CallName::Exit,
            _ => return None,
        })
    }

    // The call on mounts, or on the places and namespaces of tasks, that a text names.
    fn on_mounts(text: &[u8]) -> Option<Self>
        ensures named { IfSome result (λ name. text.now ≡ name_text name) }
        ensures unknown { result ≡ None → list_any (bytes_eq text.now) mounting_call_names ≡ false }
    {
        Some(match text {
            b"mount" => CallName::Mount,
            b"bind" => CallName::Pair(PairCall::Bind),
            b"rbind" => CallName::Pair(PairCall::Rbind),
            b"move" => CallName::Pair(PairCall::Move),
            b"umount" => CallName::Path(PathCall::Umount),
            b"lazy" => CallName::Path(PathCall::Lazy),
            b"remount" => CallName::Remount,
            b"type" => CallName::SetType,
            b"rtype" => CallName::SetTypeRecursive,
            b"mounts" => CallName::Mounts,
            b"chdir" => CallName::Path(PathCall::Chdir),
            b"chroot" => CallName::Path(PathCall::Chroot),
            b"unshare" => CallName::Unshare,
            b"setns" => CallName::Setns,
            _ => return None,
        })
    }

    // The call that makes what hides lower layers that a text names.
    fn on_marks(text: &[u8]) -> Option<Self>
        ensures named { IfSome result (λ name. text.now ≡ name_text name) }
        ensures unknown { result ≡ None → list_any (bytes_eq text.now) marking_call_names ≡ false }
    {
        Some(match text {
            b"whiteout" => CallName::Path(PathCall::Whiteout),
            b"opaque" => CallName::Opaque,
            _ => return None,
        })
    }

    // The call that exchanges root mounts that a text names.
    fn on_root_mounts(text: &[u8]) -> Option<Self>
        ensures named { IfSome result (λ name. text.now ≡ name_text name) }
        ensures unknown { result ≡ None → list_any (bytes_eq text.now) pivoting_call_names ≡ false }
    {
        Some(match text {
            b"pivot_root" => CallName::PivotRoot,
            _ => return None,
        })
    }
}
