//! Which call it is, without its words.
ghost use Rattle.std.specs.Prelude.{◌≡◌};
ghost use Rattle.vt_request.specs.Kinds.{kind_of};
ghost use Rattle.vt_request.specs.Requests.{call_of, descriptor_call_of, look_call_of, make_call_of, mount_call_of, remove_call_of, task_call_of, write_call_of};
ghost use Rattle.vt_spec.specs.Machine.Policy.{only_looks};

use crate::request::{
    Call, DescriptorCall, LookCall, MakeCall, MountCall, RemoveCall, TaskCall, WriteCall,
};

/// A call of a task, without its words.
#[derive(Clone, Copy, Debug, PartialEq, Eq)]
pub enum CallKind {
    Ls,
    Stat,
    Lstat,
    Readlink,
    Read,
    Exec,
    Pread,
    ListMounts,
    Mkdir,
    Symlink,
    Whiteout,
    Link,
    Unlink,
    Rmdir,
    Rename,
    Write,
    Pwrite,
    Chmod,
    Chown,
    Opaque,
    Open,
    Close,
    Chdir,
    Chroot,
    Umask,
    Drop,
    Fork,
    Exit,
    Unshare,
    Setns,
    MountPlain,
    MountOverlay,
    Bind,
    MoveMount,
    Umount,
    Lazy,
    Remount,
    SetType,
    PivotRoot,
}

impl Call<'_> {
    /// Which call it is.
    pub fn kind(&self) -> CallKind
        ensures { kind_of (call_of self.now) ≡ result }
    {
        match self {
            Call::Look(call) => call.kind(),
            Call::Make(call) => call.kind(),
            Call::Remove(call) => call.kind(),
            Call::Write(call) => call.kind(),
            Call::Descriptor(call) => call.kind(),
            Call::Task(call) => call.kind(),
            Call::Mount(call) => call.kind(),
        }
    }

    /// Whether it only looks: then it changes nothing, and no change number.
    pub fn only_looks(&self) -> bool
        ensures { result ≡ only_looks (call_of self.now) }
    {
        matches!(self, Call::Look(_))
    }
}

impl LookCall<'_> {
    fn kind(&self) -> CallKind
        ensures { kind_of (look_call_of self.now) ≡ result }
    {
        match self {
            LookCall::Ls { .. } => CallKind::Ls,
            LookCall::Stat { .. } => CallKind::Stat,
            LookCall::Lstat { .. } => CallKind::Lstat,
            LookCall::Readlink { .. } => CallKind::Readlink,
            LookCall::Read { .. } => CallKind::Read,
            LookCall::Exec { .. } => CallKind::Exec,
            LookCall::Pread { .. } => CallKind::Pread,
            LookCall::ListMounts => CallKind::ListMounts,
        }
    }
}

impl MakeCall<'_> {
    fn kind(&self) -> CallKind
        ensures { kind_of (make_call_of self.now) ≡ result }
    {
        match self {
            MakeCall::Mkdir { .. } => CallKind::Mkdir,
            MakeCall::Symlink { .. } => CallKind::Symlink,
            MakeCall::Whiteout { .. } => CallKind::Whiteout,
            MakeCall::Link { .. } => CallKind::Link,
        }
    }
}

impl RemoveCall<'_> {
    fn kind(&self) -> CallKind
        ensures { kind_of (remove_call_of self.now) ≡ result }
    {
        match self {
            RemoveCall::Unlink { .. } => CallKind::Unlink,
            RemoveCall::Rmdir { .. } => CallKind::Rmdir,
            RemoveCall::Rename { .. } => CallKind::Rename,
        }
    }
}

impl WriteCall<'_> {
    fn kind(&self) -> CallKind
        ensures { kind_of (write_call_of self.now) ≡ result }
    {
        match self {
            WriteCall::Write { .. } => CallKind::Write,
            WriteCall::Pwrite { .. } => CallKind::Pwrite,
            WriteCall::Chmod { .. } => CallKind::Chmod,
            WriteCall::Chown { .. } => CallKind::Chown,
            WriteCall::Opaque { .. } => CallKind::Opaque,
        }
    }
}

impl DescriptorCall<'_> {
    fn kind(&self) -> CallKind
        ensures { kind_of (descriptor_call_of self.now) ≡ result }
    {
        match self {
            DescriptorCall::Open { .. } => CallKind::Open,
            DescriptorCall::Close { .. } => CallKind::Close,
        }
    }
}

impl TaskCall<'_> {
    fn kind(&self) -> CallKind
        ensures { kind_of (task_call_of self.now) ≡ result }
    {
        match self {
            TaskCall::Chdir { .. } => CallKind::Chdir,
            TaskCall::Chroot { .. } => CallKind::Chroot,
            TaskCall::Umask { .. } => CallKind::Umask,
            TaskCall::Drop { .. } => CallKind::Drop,
            TaskCall::Fork { .. } => CallKind::Fork,
            TaskCall::Exit => CallKind::Exit,
            TaskCall::Unshare => CallKind::Unshare,
            TaskCall::Setns { .. } => CallKind::Setns,
        }
    }
}

impl MountCall<'_> {
    fn kind(&self) -> CallKind
        ensures { kind_of (mount_call_of self.now) ≡ result }
    {
        match self {
            MountCall::Plain { .. } => CallKind::MountPlain,
            MountCall::Overlay { .. } => CallKind::MountOverlay,
            MountCall::Bind { .. } => CallKind::Bind,
            MountCall::Move { .. } => CallKind::MoveMount,
            MountCall::Umount { .. } => CallKind::Umount,
            MountCall::Lazy { .. } => CallKind::Lazy,
            MountCall::Remount { .. } => CallKind::Remount,
            MountCall::SetType { .. } => CallKind::SetType,
            MountCall::Pivot { .. } => CallKind::PivotRoot,
        }
    }
}
