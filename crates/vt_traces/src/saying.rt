//! A call of a trace as a call of a script.
use crate::call::{Call, Outcome};
use crate::mounting::{mounted, unmounted};
use crate::process::{Process, Why};
use crate::rows::{At, Row, Verb};
use crate::texts::{has_flag, word_of};
use std::alloc::{AllocError, Global};

const NO_TEXT: &str = "a text that the trace does not have whole";

const NO_FORM: &str = "arguments of another form";

/// A call of a process of a trace.
#[derive(Clone, Copy)]
pub struct Saying<'a> {
    pub alloc: Global,
    pub process: &'a Process,
    pub call: &'a Call<'a>,
    pub row: Row,
}

// A mode as a script has it: without bits that it has not.
fn mode_word(alloc: Global, argument: &str) -> Result<String, Why> {
    match u32::from_str_radix(argument.trim(), 8) {
        Ok(mode) => {
            let mode = mode & 0o1777;
            Ok(format!(in alloc; "{mode:o}")?)
        }
        Err(_) => Err(Why::Kind(NO_FORM)),
    }
}

// The number of a user or a group, or `-` for -1.
fn id_word(alloc: Global, argument: &str) -> Result<String, Why> {
    if argument == "-1" {
        return Ok(String::from_str(alloc, "-")?);
    }
    match argument.parse::<u32>() {
        Ok(id) if id < u32::MAX => Ok(format!(in alloc; "{id}")?),
        _ => Err(Why::Kind(NO_FORM)),
    }
}

impl<'a> Saying<'a> {
    /// An argument that is a text, as a word.
    pub fn text(&self, place: usize) -> Result<String, Why> {
        match word_of(self.alloc, self.call.argument(place)) {
            Ok(Some(word)) => Ok(word),
            Ok(None) => Err(Why::Kind(NO_TEXT)),
            Err(_) => Err(Why::Memory),
        }
    }

    // A path, as the task is to have it.
    fn path(&self, at: At) -> Result<String, Why> {
        let directory = match at.directory {
            Some(place) => self.call.argument(place),
            None => "",
        };
        let word = self.text(at.text)?;
        self.process.path(self.alloc, directory, word)
    }

    /// The first path.
    pub fn first(&self) -> Result<String, Why> {
        self.path(self.row.first())
    }

    /// The second path.
    pub fn second(&self) -> Result<String, Why> {
        self.path(self.row.second())
    }

    /// What follows the paths, by its place.
    pub fn rest(&self, place: usize) -> &'a str {
        self.call.argument(self.row.rest.saturating_add(place))
    }

    /// Whether the flags behind the paths have this one.
    pub fn has(&self, flag: &str) -> bool {
        has_flag(self.rest(0), flag)
    }

    // A call of one path.
    fn of_path(&self, name: &str) -> Result<String, Why> {
        let path = self.first()?;
        Ok(format!(in self.alloc; "{name} {path}")?)
    }

    // A call of two paths.
    fn of_paths(&self, name: &str) -> Result<String, Why> {
        let (first, second) = (self.first()?, self.second()?);
        Ok(format!(in self.alloc; "{name} {first} {second}")?)
    }

    // A call of a path and a mode.
    fn of_mode(&self, name: &str) -> Result<String, Why> {
        let (path, mode) = (self.first()?, mode_word(self.alloc, self.rest(0))?);
        Ok(format!(in self.alloc; "{name} {path} {mode}")?)
    }

    fn chown(&self) -> Result<String, Why> {
        let (uid, gid) = (
            id_word(self.alloc, self.rest(0))?,
            id_word(self.alloc, self.rest(1))?,
        );
        if has_flag(self.rest(2), "AT_SYMLINK_NOFOLLOW") {
            return Err(Why::Kind("the owner of a symlink"));
        }
        if uid.as_str() == "-" && gid.as_str() == "-" {
            return Err(Why::Kind("a change of no owner"));
        }
        let path = self.first()?;
        Ok(format!(in self.alloc; "chown {path} {uid} {gid}")?)
    }

    fn symlink(&self) -> Result<String, Why> {
        let (path, text) = (self.first()?, self.text(self.row.second().text)?);
        Ok(format!(in self.alloc; "symlink {text} {path}")?)
    }

    fn stat(&self) -> Result<String, Why> {
        if self.has("AT_EMPTY_PATH") {
            return Err(Why::Look("the status of a descriptor"));
        }
        let is_link = self.row.verb == Verb::Lstat || self.has("AT_SYMLINK_NOFOLLOW");
        self.of_path(if is_link { "lstat" } else { "stat" })
    }

    fn access(&self) -> Result<String, Why> {
        if self.rest(0) != "F_OK" {
            return Err(Why::Look("a question of rights"));
        }
        self.of_path("stat")
    }

    // How a file is opened.
    fn open(&self) -> Result<String, Why> {
        if self.has("O_DIRECTORY") || self.has("O_PATH") || self.has("O_TMPFILE") {
            return Err(Why::Kind("a directory that is opened, or a file of another kind"));
        }
        let access = if self.has("O_RDWR") {
            "rw"
        } else if self.has("O_WRONLY") {
            "w"
        } else {
            "r"
        };
        let path = self.first()?;
        if !self.has("O_CREAT") {
            return Ok(format!(in self.alloc; "open {path} {access}")?);
        }
        let how = if self.has("O_EXCL") { "excl" } else { "create" };
        let mode = mode_word(self.alloc, self.rest(1))?;
        Ok(format!(in self.alloc; "open {path} {access} {how} {mode}")?)
    }

    fn creat(&self) -> Result<String, Why> {
        let (path, mode) = (self.first()?, mode_word(self.alloc, self.rest(0))?);
        Ok(format!(in self.alloc; "open {path} w create {mode}")?)
    }

    fn fchdir(&self) -> Result<String, Why> {
        let path = self.process.path_of(self.alloc, self.call.argument(0))?;
        Ok(format!(in self.alloc; "chdir {path}")?)
    }

    // The working directory, of which the first that is seen is the one of the task.
    fn getcwd(&self) -> Result<String, Why> {
        if self.process.is_placed || !self.call.is_done() {
            return Err(Why::Look("getcwd"));
        }
        let path = self.text(0)?;
        Ok(format!(in self.alloc; "chdir {path}")?)
    }

    fn umask(&self) -> Result<String, Why> {
        let mode = mode_word(self.alloc, self.rest(0))?;
        Ok(format!(in self.alloc; "umask {mode}")?)
    }

    fn unshare(&self) -> Result<String, Why> {
        if self.has("CLONE_NEWNS") {
            Ok(String::from_str(self.alloc, "unshare")?)
        } else {
            Err(Why::Kind("a namespace of another kind"))
        }
    }

    // Calls on names.
    fn of_name(&self) -> Result<String, Why> {
        match self.row.verb {
            Verb::Mkdir => self.of_mode("mkdir"),
            Verb::Unlink if self.has("AT_REMOVEDIR") => self.of_path("rmdir"),
            Verb::Unlink => self.of_path("unlink"),
            Verb::Rmdir => self.of_path("rmdir"),
            Verb::Rename if !matches!(self.rest(0), "" | "0") => {
                Err(Why::Kind("a rename with flags"))
            }
            Verb::Rename => self.of_paths("rename"),
            Verb::Link => self.of_paths("link"),
            Verb::Symlink => self.symlink(),
            _ => self.of_object(),
        }
    }

    // Calls on objects and of tasks.
    fn of_object(&self) -> Result<String, Why> {
        match self.row.verb {
            Verb::Readlink => self.of_path("readlink"),
            Verb::Stat | Verb::Lstat => self.stat(),
            Verb::Access => self.access(),
            Verb::Open => self.open(),
            Verb::Creat => self.creat(),
            Verb::Chmod => self.of_mode("chmod"),
            Verb::Chown => self.chown(),
            Verb::Exec => self.of_path("exec"),
            _ => self.of_task(),
        }
    }

    // Calls of tasks and of mounts.
    fn of_task(&self) -> Result<String, Why> {
        match self.row.verb {
            Verb::Chdir => self.of_path("chdir"),
            Verb::Fchdir => self.fchdir(),
            Verb::Getcwd => self.getcwd(),
            Verb::Chroot => self.of_path("chroot"),
            Verb::Umask => self.umask(),
            Verb::Mount => mounted(self),
            Verb::Umount => unmounted(self),
            Verb::Pivot => self.of_paths("pivot_root"),
            Verb::Unshare => self.unshare(),
            _ => Err(Why::Kind("another call")),
        }
    }

    /// The words of the call behind those of the task.
    pub fn words(&self) -> Result<String, Why> {
        self.of_name()
    }

    // Whether an answer has a value.
    fn has_value(&self) -> bool {
        matches!(
            self.row.verb,
            Verb::Readlink | Verb::Stat | Verb::Lstat | Verb::Access | Verb::Open | Verb::Creat
        )
    }

    /// The answer that is wanted, as it stands behind the line; nothing where that is `ok`.
    pub fn wanted(&self) -> Result<String, AllocError> {
        match self.call.outcome {
            Outcome::Failed(error) if is_known(error) => {
                format!(in self.alloc; " => deny {error}")
            }
            Outcome::Failed(_) => String::from_str(self.alloc, " => deny"),
            _ if self.has_value() => String::from_str(self.alloc, " => ok .."),
            _ => Ok(String::new(self.alloc)),
        }
    }
}

// The errors that a script can answer.
static ERRORS: [&str; 20] = [
    "EPERM",
    "ENOENT",
    "ESRCH",
    "ENXIO",
    "EBADF",
    "ENOMEM",
    "EACCES",
    "EBUSY",
    "EEXIST",
    "EXDEV",
    "ENOTDIR",
    "EISDIR",
    "EINVAL",
    "EMFILE",
    "EFBIG",
    "ENOSPC",
    "EROFS",
    "ENAMETOOLONG",
    "ENOTEMPTY",
    "ELOOP",
];

// Whether a script can answer the error of this name.
fn is_known(error: &str) -> bool {
    for known in &ERRORS {
        if *known == error {
            return true;
        }
    }
    false
}
