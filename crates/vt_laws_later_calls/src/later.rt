//! What later calls see of earlier ones in a plain world. The call before is granted; those after it are handed any
//! numbers.
ghost use Rattle.vt_laws_later_calls.specs.LaterNames.{RenameDirectoryThenList, RenameDirectoryThenLstat, RenameThenFound, RenameThenListed};
ghost use Rattle.vt_laws_later_calls.specs.LaterPaths.{ChmodThenStat, ChownThenStat, ExclusiveTwice, LinkThenLstat, MkdirThenList, RenameThenLstat, RmdirThenLstat, SymlinkThenReadlink, UnlinkThenLstat, WriteThenRead};
ghost use Rattle.vt_laws_later_calls.specs.Later.{CreateThenPread, ExclusiveThenPread, OpenOrCreateThenPread, OpenThenPread, PwriteThenPread};

/// A later `pread` gives the bytes that `pwrite` wrote there (`written_through`), or those of the file that `open` led
/// to (`opened`) or made (`created`), and no rule refuses it.
///
/// - `written_through`: the descriptor is of any task, on the same file, and reads.
/// - `opened`, `opened_or_created`: `open` of an existing file, without `creat` or with it, gives the least free number
///   and the access asked for, on the file that the walk led to. `pread` is by that descriptor, if it reads.
/// - `created`, `created_alone`: `open` with `creat` of a missing name, and with `creat` and `excl`, gives the same on
///   a new empty regular file. That has the mode asked for, less the umask, and the first number handed in.
pub fn later_calls_see_earlier_ones()
    ensures written_through { PwriteThenPread }
    ensures opened { OpenThenPread }
    ensures opened_or_created { OpenOrCreateThenPread }
    ensures created { CreateThenPread }
    ensures created_alone { ExclusiveThenPread }
{}

/// Unless C1, W4 or W6 refuses, later calls of a task at the same path tell what its call made of it. So do those of
/// tasks with its root and working directory that read everything (`reads_all`).
///
/// These hold CAP_DAC_OVERRIDE or CAP_DAC_READ_SEARCH; C1 and W4 refuse no such task. Mounts and symlinks may be on the
/// way.
///
/// | clause | after | later | unless refused by |
/// |---|---|---|---|
/// | `written` | `write` | `read` gives the bytes | C1 |
/// | `made` | `mkdir` | `ls` lists nothing | C1 |
/// | `linked` | `symlink` | `readlink` gives the text | |
/// | `mode_set`, `owner_set` | `chmod`, `chown` | `stat` tells what was set, and all else as before | W4 |
/// | `named` | `link` | `lstat` of the new name tells what it told of the old one | |
/// | `unlinked` | `unlink` | W6 refuses `lstat` | |
/// | `removed` | `rmdir` | W6 refuses `lstat`, or W8 if that was the task's working directory | |
/// | `renamed` | `rename` of an object that is no directory to a free name | `lstat` of the new path tells what it told of the old one; W6 refuses the old one | W6, at the new path |
/// | `moved`, `moved_listed` | the same of a directory | the same; `ls` of the new path lists what it listed | W6, at the new path; C1 of `ls` |
/// | `created_once` | `open` with `creat` and `excl` | E1 refuses another one, if the task has a descriptor left | |
///
/// For `moved` and `moved_listed` neither the root nor the working directory of the task that renames, nor a mount
/// point of its namespace, lies in the directory.
///
/// After any `rename`, but of two names of one object, a path of any task may lead to the new name, free before or not,
/// in its directory. There `lstat` tells what it told of the old path; a slash at the end needs a directory. At the old
/// name W6 refuses `lstat` (`found`). Of a directory `ls` lists what it listed, unless C1 refuses (`listed`).
pub fn later_calls_see_it_at_the_path()
    ensures written { WriteThenRead }
    ensures made { MkdirThenList }
    ensures linked { SymlinkThenReadlink }
    ensures mode_set { ChmodThenStat }
    ensures owner_set { ChownThenStat }
    ensures named { LinkThenLstat }
    ensures unlinked { UnlinkThenLstat }
    ensures removed { RmdirThenLstat }
    ensures renamed { RenameThenLstat }
    ensures moved { RenameDirectoryThenLstat }
    ensures moved_listed { RenameDirectoryThenList }
    ensures found { RenameThenFound }
    ensures listed { RenameThenListed }
    ensures created_once { ExclusiveTwice }
{}
