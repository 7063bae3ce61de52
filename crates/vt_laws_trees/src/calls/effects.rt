//! Rights behind effects of granted calls.
ghost use Rattle.vt_laws_trees.specs.Calls.Effects.{BytesAreToldByRight, ChangesAreByRight, NamesAreToldByRight, OpensAreByRight};

/// A granted plain call `changes` an inode that stays, without handed-in number, only by a right of its task. In every
/// world, the `names`, `bytes` and descriptors (`opens`) that a granted call gives are by right.
///
/// The rights behind `changes`:
///
/// - bytes, if the task may write the object or has it open for writing;
/// - the mode, if it owns the object or holds CAP_FOWNER; owner and group, if the object is its own or it holds
///   CAP_CHOWN;
/// - an entry, if it may write and search the directory; the opaque mark, if it holds CAP_SYS_ADMIN.
///
/// Names are of the directory that the call's path leads to, which the task may read. Bytes are of the object that its
/// path leads to, which the task may read, or the text of the symlink there. Else they are the part that it asks for,
/// by a descriptor open for reading. A descriptor that it gives is for a file that the task may read and write as it
/// asked, or for a new one.
pub fn a_right_stands_behind_each_effect()
    ensures changes { ChangesAreByRight }
    ensures names { NamesAreToldByRight }
    ensures bytes { BytesAreToldByRight }
    ensures opens { OpensAreByRight }
{}
