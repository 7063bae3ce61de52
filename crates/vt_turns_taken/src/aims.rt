//! What a call takes its paths for.
use vt_request::{
    Call, Creation, DescriptorCall, LookCall, MakeCall, MountCall, RemoveCall, TaskCall, WriteCall,
};

/// What a path is walked for.
#[derive(Clone, Copy)]
pub enum Aim {
    Object,
    Directory,
    /// An object; a final symlink itself, unless a slash follows.
    Symlink,
    /// A name that may be missing.
    New,
    /// The same, of what is no directory.
    NewLeaf,
    /// The new name of a rename.
    Renamed,
    /// A name that must exist.
    Old,
    /// The same, of what is maybe no directory.
    OldLeaf,
    /// A file that may be made; a final symlink is followed.
    File,
    Source,
    Destination,
}

/// A path of a call, and what it is walked for.
#[derive(Clone, Copy)]
pub struct Route<'a> {
    pub path: &'a [u8],
    pub aim: Aim,
}

/// The routes of a call, but those to the layers of an overlay, in the order in which they are walked.
pub type Routes<'a> = [Option<Route<'a>>; 2];

// One route.
fn one(path: &[u8], aim: Aim) -> Routes<'_> {
    [Some(Route { path, aim }), None]
}

// Two routes.
fn two<'a>(first: &'a [u8], aim: Aim, second: &'a [u8], other: Aim) -> Routes<'a> {
    [
        Some(Route { path: first, aim }),
        Some(Route {
            path: second,
            aim: other,
        }),
    ]
}

// The routes of a call that looks.
fn looking<'a>(call: &LookCall<'a>) -> Routes<'a> {
    match call {
        LookCall::Ls { path } => one(path, Aim::Directory),
        LookCall::Stat { path } | LookCall::Read { path } | LookCall::Exec { path } => {
            one(path, Aim::Object)
        }
        LookCall::Lstat { path } | LookCall::Readlink { path } => one(path, Aim::Symlink),
        LookCall::Pread { .. } | LookCall::ListMounts => [None, None],
    }
}

// The routes of a call that makes a name.
fn making<'a>(call: &MakeCall<'a>) -> Routes<'a> {
    match call {
        MakeCall::Mkdir { path, .. } => one(path, Aim::New),
        MakeCall::Symlink { path, .. } | MakeCall::Whiteout { path } => one(path, Aim::NewLeaf),
        MakeCall::Link { old, new } => two(old, Aim::Symlink, new, Aim::NewLeaf),
    }
}

// The routes of a call that takes a name away.
fn removing<'a>(call: &RemoveCall<'a>) -> Routes<'a> {
    match call {
        RemoveCall::Unlink { path } => one(path, Aim::OldLeaf),
        RemoveCall::Rmdir { path } => one(path, Aim::Old),
        RemoveCall::Rename { old, new } => two(old, Aim::OldLeaf, new, Aim::Renamed),
    }
}

// The routes of a call that sets something.
fn writing<'a>(call: &WriteCall<'a>) -> Routes<'a> {
    match call {
        WriteCall::Write { path, .. } => one(path, Aim::File),
        WriteCall::Chmod { path, .. } | WriteCall::Chown { path, .. } => one(path, Aim::Object),
        WriteCall::Opaque { path, .. } => one(path, Aim::Directory),
        WriteCall::Pwrite { .. } => [None, None],
    }
}

// The routes of a call that opens or closes a file.
fn opening<'a>(call: &DescriptorCall<'a>) -> Routes<'a> {
    match call {
        DescriptorCall::Open { path, creation, .. } => match creation {
            Creation::Never => one(path, Aim::Object),
            Creation::OrCreate(_) => one(path, Aim::File),
            Creation::Exclusive(_) => one(path, Aim::New),
        },
        DescriptorCall::Close { .. } => [None, None],
    }
}

// The routes of a call that changes mounts.
fn mounting<'a>(call: &MountCall<'a>) -> Routes<'a> {
    match call {
        MountCall::Plain { path, .. } | MountCall::Overlay { path, .. } => {
            one(path, Aim::Destination)
        }
        MountCall::Bind { source, path, .. } | MountCall::Move { source, path } => {
            two(source, Aim::Source, path, Aim::Destination)
        }
        MountCall::Umount { path }
        | MountCall::Lazy { path }
        | MountCall::Remount { path, .. }
        | MountCall::SetType { path, .. } => one(path, Aim::Directory),
        MountCall::Pivot { new, put } => two(new, Aim::Source, put, Aim::Destination),
    }
}

/// The routes of a call.
pub fn routes_of<'a>(call: &Call<'a>) -> Routes<'a> {
    match call {
        Call::Look(call) => looking(call),
        Call::Make(call) => making(call),
        Call::Remove(call) => removing(call),
        Call::Write(call) => writing(call),
        Call::Descriptor(call) => opening(call),
        Call::Task(TaskCall::Chdir { path } | TaskCall::Chroot { path }) => {
            one(path, Aim::Directory)
        }
        Call::Task(_) => [None, None],
        Call::Mount(call) => mounting(call),
    }
}
