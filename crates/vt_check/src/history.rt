//! What the lines of a script leave for later ones, as far as it is known without a run, and warnings that come of it.
use crate::draft::Draft;
use crate::finding::Diagnosis;
use crate::nearest::write_options;
use crate::unmodelled::nearest_to;
use crate::words::{Word, parts_of, word_at};
use std::alloc::{AllocError, Global};
use std::collections::BTreeMap;
use std::mem;
use vt_line::line::Line;
use vt_line::version::Version;
use vt_options::LayerOptions;
use vt_request::{
    Call, Creation, DescriptorCall, MakeCall, MountCall, RemoveCall, TaskCall, TaskName, WriteCall,
};
use vt_spec::attributes::Mode;

// The umask of the first task.
const UMASK: u16 = 0o022;

// What is said of the options of an overlay.
const READ_ONLY: &str =
    "an overlay is read here, and not written: `lowerdir=/high:/low`, the top layer first";

const UPPER: &str = "`upperdir` is not in this version: a run refuses it";

const OPTIONS: &str =
    "options are `lowerdir=`, `workdir=`, `index=off`, `metacopy=off`, `redirect_dir=off` and `xino=off`; \
     flags are a word behind them";

// What is known of a task.
#[derive(Clone, Copy)]
struct Task {
    forks: u64,
    umask: u16,
    // Whether `/` is what it is for the first task, as far as is known.
    has_first_root: bool,
    // The line of a change of its root behind which its working directory was not changed.
    chroot: Option<u64>,
    // A line that was to fork a child, and is refused.
    refused_fork: Option<u64>,
}

// Proposes the line with the options of its overlay that a run takes, if they name two layers.
fn propose_options(found: &mut Diagnosis, line: &str) {
    let mut text = found.draft();
    let mut is_clear = true;
    let whole = Word {
        column: 0,
        text: line,
    };
    let words = parts_of(found, whole, [' ', ' ']);
    for (place, word) in words.iter().enumerate() {
        if place == 4 {
            text.push_char(' ');
            is_clear = write_options(found, word.text, &mut text);
        } else {
            text.push_word(word.text);
        }
    }
    if is_clear {
        found.propose(text);
    }
}

// Appends the name of the task that these numbers name.
fn push_task(text: &mut Draft, numbers: &[u8]) {
    text.push_char('t');
    for number in numbers {
        text.push_char('.');
        text.push_number(u64::from(*number));
    }
}

/// The tasks that the lines so far speak of, by the numbers of their names. An allocation that fails is noted.
#[derive(Drop)]
pub struct History {
    version: Version,
    alloc: Global,
    tasks: BTreeMap<Vec<u8>, Task>,
    // Of the scripts that came to their end.
    chroots: Vec<u64>,
    // The lines that make files, by the files' paths from the root of the first task.
    files: BTreeMap<Vec<u8>, u64>,
    pub failed: bool,
}

impl History {
    /// The first task alone.
    pub fn new(version: Version, alloc: Global) -> Self {
        let mut history = History {
            version,
            alloc,
            tasks: BTreeMap::new(alloc),
            chroots: Vec::new(alloc),
            files: BTreeMap::new(alloc),
            failed: false,
        };
        history.meet(&[], UMASK, true);
        history
    }

    /// Begins anew, as a new script does; the changes of roots above are kept.
    pub fn begin(&mut self) {
        self.keep_unfollowed();
        self.tasks.clear();
        self.files.clear();
        self.meet(&[], UMASK, true);
    }

    // Keeps the lines that change a task's root, and behind which its working directory was not changed.
    fn keep_unfollowed(&mut self) {
        for task in self.tasks.values() {
            if let Some(line) = task.chroot {
                self.failed |= self.chroots.push(line).is_err();
            }
        }
    }

    // Begins to speak of a task, and says whether it is new.
    fn meet(&mut self, numbers: &[u8], umask: u16, has_first_root: bool) -> bool {
        if self.tasks.contains_key(numbers) {
            return false;
        }
        let task = Task {
            forks: 0,
            umask,
            has_first_root,
            chroot: None,
            refused_fork: None,
        };
        match numbers.to_vec(self.alloc) {
            Ok(numbers) => self.failed |= self.tasks.insert(numbers, task).is_err(),
            Err(_) => self.failed = true,
        }
        true
    }

    // A warning about the word at this place of a line: its message, or how that begins, and what to do about it.
    fn warning(&self, line: &[u8], place: usize, message: &str, help: &'static str) -> Diagnosis {
        let Word { column, text } = word_at(str::from_utf8(line).unwrap_or_default(), place);
        let mut found = Diagnosis::new(self.version, self.alloc);
        found.column = column;
        found.width = text.len();
        found.message.push(message);
        found.words = help;
        found
    }

    // A warning about a task that no line forks.
    fn unforked(&self, line: &[u8], numbers: &[u8]) -> Diagnosis {
        let help = "a task's children are `.1`, `.2` and so on, in the order of its `fork` lines";
        let mut found = self.warning(line, 0, "no line above forks `", help);
        push_task(&mut found.message, numbers);
        found.message.push_char('`');
        found
    }

    // Begins to speak of a child of the task of these numbers, if there is memory for it.
    fn meet_child(&mut self, numbers: &[u8], parent: Task) -> Result<(), AllocError> {
        let mut numbers = numbers.to_vec(self.alloc)?;
        numbers.push(u8::try_from(parent.forks).unwrap_or(u8::MAX))?;
        self.meet(numbers.as_slice(), parent.umask, parent.has_first_root);
        Ok(())
    }

    // A child of a task. It has another number than is meant, where a line above is refused.
    fn fork(&mut self, line: &[u8], numbers: &[u8]) -> Option<Diagnosis> {
        let task = self.tasks.get_mut(numbers)?;
        task.forks = task.forks.saturating_add(1);
        let parent = *task;
        task.refused_fork = None;
        self.failed |= self.meet_child(numbers, parent).is_err();
        let refused = parent.refused_fork?;
        let help = "a refused line uses no number: mend it, or number the tasks anew";
        let mut found = self.warning(line, 1, "this makes `", help);
        push_task(&mut found.message, numbers);
        found.message.push_char('.');
        found.message.push_number(parent.forks);
        found.message.push("`, since line ");
        found.message.push_number(refused);
        found.message.push(" is refused and forks nothing");
        Some(found)
    }

    // A warning where the umask takes bits of the mode that is the word at this place.
    fn of_mode(&self, line: &[u8], place: usize, mode: Mode, umask: u16) -> Option<Diagnosis> {
        let mode = mode.bits();
        let kept = mode & (0o1777 ^ (umask & 0o1777));
        if kept == mode {
            return None;
        }
        let help = "`chmod` sets a mode whatever the umask is";
        let mut found = self.warning(line, place, "the umask ", help);
        found.message.push_octal(umask, 3);
        found.message.push(" makes ");
        found.message.push_octal(kept, 1);
        found.message.push(" of the mode ");
        found.message.push_octal(mode, 1);
        Some(found)
    }

    // What is said of an option of an overlay that a run refuses, if it does: a form of the message, and what to do.
    fn said_of_option(option: &[u8]) -> Option<(&'static str, &'static str)> {
        match LayerOptions::parse(option) {
            Some(known) if known.upper().is_some() => Some((UPPER, READ_ONLY)),
            Some(_) => None,
            None if option.is_empty() => Some(("an empty option: a run refuses it", OPTIONS)),
            None => match nearest_to(str::from_utf8(option).unwrap_or_default()) {
                Some(said) => Some(("`{}` is not modelled: a run refuses it", said)),
                None => Some((
                    "`{}` is no option of an overlay here: a run refuses it",
                    OPTIONS,
                )),
            },
        }
    }

    // A warning about the first option of an overlay that a run refuses, if there is one, and the line without those
    // that are not modelled.
    fn of_option(&self, line: &[u8], options: &[u8]) -> Option<Diagnosis> {
        for option in options.split(|byte| *byte == b',') {
            if let Some((form, help)) = Self::said_of_option(option) {
                let mut found = self.warning(line, 4, "", help);
                let option = str::from_utf8(option).unwrap_or_default();
                found.message.fill(form, &[option]);
                propose_options(&mut found, str::from_utf8(line).unwrap_or_default());
                return Some(found);
            }
        }
        None
    }

    // A warning about the words of a mount of an overlay: they stand in each other's place, a run refuses an option, or
    // there are no two layers.
    fn of_overlay(
        &self,
        line: &[u8],
        path: &[u8],
        options: &Result<LayerOptions<'_>, &[u8]>,
    ) -> Option<Diagnosis> {
        match options {
            Ok(all) if all.lowers().nth(1).is_some() => None,
            Ok(_) => Some(self.warning(
                line,
                4,
                "fewer than two layers: a run refuses it",
                READ_ONLY,
            )),
            Err(text)
                if LayerOptions::parse(text).is_none() && LayerOptions::parse(path).is_some() => {
                let message = "options in the place of the path: a run refuses it";
                let help = "the path comes first: `mount overlay /m lowerdir=/high:/low`";
                Some(self.warning(line, 3, message, help))
            }
            Err(text) => self.of_option(line, text),
        }
    }

    // What a call of a task leaves for later ones, if it is no fork.
    fn apply(
        &mut self,
        number: u64,
        line: &[u8],
        numbers: &[u8],
        call: &Call<'_>,
    ) -> Option<Diagnosis> {
        let task = self.tasks.get_mut(numbers)?;
        let umask = task.umask;
        match call {
            Call::Task(TaskCall::Umask { mode }) => task.umask = mode.bits(),
            Call::Task(TaskCall::Chroot { .. }) => {
                task.chroot = Some(number);
                task.has_first_root = false;
            }
            Call::Task(TaskCall::Chdir { .. }) => task.chroot = None,
            Call::Task(TaskCall::Setns { .. }) => {
                task.chroot = None;
                task.has_first_root = false;
            }
            Call::Mount(MountCall::Pivot { .. }) => task.has_first_root = false,
            Call::Make(
                MakeCall::Mkdir {
                    mode: Some(mode),
                    ..
                },
            ) => return self.of_mode(line, 3, *mode, umask),
            Call::Descriptor(
                DescriptorCall::Open {
                    creation: Creation::OrCreate(mode) | Creation::Exclusive(mode),
                    ..
                },
            ) => {
                return self.of_mode(line, 5, *mode, umask);
            }
            Call::Mount(MountCall::Overlay { path, options, .. }) => {
                return self.of_overlay(line, path, options);
            }
            _ => {}
        }
        None
    }

    // Notes the file that a call makes in the line of this number, or takes away, where the path is known to lead from
    // the first task's root.
    fn follow_file(&mut self, number: u64, numbers: &[u8], call: &Call<'_>) {
        let has_first_root = match self.tasks.get(numbers) {
            Some(task) => task.has_first_root,
            None => false,
        };
        match call {
            Call::Write(WriteCall::Write { path, .. })
                if has_first_root && path.starts_with(b"/") => {
                match path.to_vec(self.alloc) {
                    Ok(path) => self.failed |= self.files.insert(path, number).is_err(),
                    Err(_) => self.failed = true,
                }
            }
            Call::Remove(RemoveCall::Unlink { path } | RemoveCall::Rename { old: path, .. }) => {
                let _ = self.files.remove(*path);
            }
            _ => {}
        }
    }

    // A warning where the source of a bind is a file, as far as is known.
    fn of_bind(&self, line: &[u8], numbers: &[u8], source: &[u8]) -> Option<Diagnosis> {
        let made = *self.files.get(source)?;
        if !self.tasks.get(numbers)?.has_first_root {
            return None;
        }
        let help = "bind the directory that holds it; later answers may differ from those of Linux";
        let mut found = self.warning(
            line,
            2,
            "mounts of single files are not modelled: line ",
            help,
        );
        found.message.push_number(made);
        found.message.push(" makes this file, and W3 refuses its bind, where Linux takes it");
        Some(found)
    }

    /// Goes on by a task's call in the line of this number, and warns of what is seldom meant.
    pub fn call(
        &mut self,
        number: u64,
        line: &[u8],
        name: &TaskName,
        call: &Call<'_>,
    ) -> Option<Diagnosis> {
        let numbers = name.numbers();
        let is_new = self.meet(numbers, UMASK, false);
        let warning = match call {
            Call::Task(TaskCall::Fork { .. }) => self.fork(line, numbers),
            Call::Mount(MountCall::Bind { source, .. }) => self.of_bind(line, numbers, source),
            _ => self.apply(number, line, numbers, call),
        };
        self.follow_file(number, numbers, call);
        if is_new {
            Some(self.unforked(line, numbers))
        } else {
            warning
        }
    }

    /// Goes on by a line that was to fork a child of the task of another line, and is refused.
    pub fn refuse_fork(&mut self, number: u64, other: &Option<Line<'_>>) {
        if let Some(Line::Call(name, _)) = other {
            if let Some(task) = self.tasks.get_mut(name.numbers()) {
                task.refused_fork = Some(number);
            }
        }
    }

    /// A warning about a line that changes a task's root, and that no change of the working directory follows.
    pub fn unfollowed(&self, line: &[u8]) -> Diagnosis {
        let message = "no `chdir` of this task follows: it stays in its old directory";
        let help = "`chdir /` enters the new root; until then `..` leads out of it";
        self.warning(line, 1, message, help)
    }

    /// The lines that change a task's root, and behind which its working directory was not changed, in order.
    pub fn unfollowed_chroots(&mut self) -> Vec<u64> {
        self.keep_unfollowed();
        self.failed |= self.chroots.sort().is_err();
        mem::replace(&mut self.chroots, Vec::new(self.alloc))
    }
}
