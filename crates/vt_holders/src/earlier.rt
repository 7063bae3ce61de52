//! The lines that opened files and mounted overlays, and since which one a cause holds.
use std::alloc::Global;
use vt_calls::Kernel;
use vt_causes::Cause;
use vt_lines::lines::first_line;
use vt_lines::told::{Teller, answer_told};
use vt_location::FilesystemId;
use vt_ns::World;
use vt_request::{Answer, Call, CallKind, TaskName};
use vt_script::{Calls, Version};
use vt_spec::errors::Deny;

// What a line of a task opened or mounted.
#[derive(Clone, Copy)]
enum Made {
    Descriptor(u8),
    Overlay(FilesystemId),
}

// A line that opened a descriptor or mounted an overlay.
#[derive(Drop)]
struct Making {
    task: TaskName,
    made: Made,
    // How many lines of the script are before it.
    before: u64,
}

/// The descriptors that the lines of a script opened and the overlays that they mounted, in the order of the lines.
#[derive(Drop)]
pub struct Earlier<'a> {
    makings: Vec<Making>,
    // The cause that is looked for, whether it holds after the lines so far, and how many lines are before the one since
    // which it does.
    cause: Option<Cause<'a>>,
    held: bool,
    began: Option<u64>,
    // How many lines the script has.
    lines: u64,
    /// Whether an allocation failed, so that some are missing.
    pub failed: bool,
}

// The filesystem of the newest mount in the namespace of a task.
fn newest_filesystem(world: &World, task: &TaskName) -> Option<FilesystemId> {
    let namespace = world.task(task)?.namespace;
    let newest = world.all_mounts().attached_in(namespace).last().copied()?;
    let mount = world.all_mounts().get(newest)?;
    Some(mount.root.filesystem)
}

impl<'a> Earlier<'a> {
    /// The line that opened what a descriptor of a task is after the script, where the line after the script has this
    /// number.
    pub fn line_of(&self, task: &TaskName, descriptor: u8, number: u64) -> Option<u64> {
        let first = number.saturating_sub(self.lines);
        let mut found = None;
        for making in &self.makings {
            match making.made {
                Made::Descriptor(opened) if opened == descriptor && making.task == *task => {
                    found = Some(first.saturating_add(making.before));
                }
                _ => {}
            }
        }
        found
    }

    /// The task that mounted an overlay, and the line, where the line after the script has this number.
    pub fn mounter_of(&self, overlay: FilesystemId, number: u64) -> Option<(&TaskName, u64)> {
        let first = number.saturating_sub(self.lines);
        for making in &self.makings {
            match making.made {
                Made::Overlay(mounted) if mounted == overlay => {
                    return Some((&making.task, first.saturating_add(making.before)));
                }
                _ => {}
            }
        }
        None
    }

    /// How many lines of the script are before the one since which the cause holds; none where it always did.
    pub fn since(&self) -> Option<u64> {
        self.began
    }

    /// The number of the line before which the script has so many, where the line after the script has this number.
    pub fn numbered(&self, before: u64, number: u64) -> u64 {
        number.saturating_sub(self.lines).saturating_add(before)
    }

    // Looks whether the cause holds in a world: since the line that was answered, if it did not before.
    fn look(&mut self, world: &World) {
        let Some(cause) = self.cause else {
            return;
        };
        let holds = cause.holds(world);
        if holds && !self.held {
            self.began = Some(self.lines);
        }
        self.held = holds;
    }

    // Answers the lines of a script, and records what they open and mount.
    fn record_lines(
        &mut self,
        version: Version,
        alloc: Global,
        kernel: &mut Kernel,
        script: &[u8],
    ) {
        let mut rest = script;
        for _ in 0..u64::MAX {
            let Some((text, after)) = first_line(rest) else {
                return;
            };
            answer_told(version, alloc, kernel, text, self);
            self.lines = self.lines.saturating_add(1);
            rest = after;
        }
    }

    // The same in a world of which nothing is left then.
    fn record_all(&mut self, version: Version, alloc: Global, kernel: Kernel, script: &[u8]) {
        let mut kernel = kernel;
        self.look(kernel.world());
        self.began = None;
        self.record_lines(version, alloc, &mut kernel, script);
        kernel.end();
    }
}

impl Teller<Kernel> for Earlier<'_> {
    fn before(&mut self, _kernel: &Kernel, _name: &TaskName, _call: &Call<'_>) {}

    fn after(
        &mut self,
        kernel: &Kernel,
        name: TaskName,
        kind: CallKind,
        outcome: &Result<Answer, Deny>,
    ) {
        let made = match outcome {
            Ok(Answer::Opened(descriptor)) => Some(Made::Descriptor(*descriptor)),
            Ok(_) if kind == CallKind::MountOverlay => {
                match newest_filesystem(kernel.world(), &name) {
                    Some(overlay) => Some(Made::Overlay(overlay)),
                    None => None,
                }
            }
            _ => None,
        };
        if let Some(made) = made {
            let making = Making {
                task: name,
                made,
                before: self.lines,
            };
            self.failed |= self.makings.push(making).is_err();
        }
        self.look(kernel.world());
    }

    fn alone(&mut self, _outcome: &Result<Answer, Deny>) {}
}

/// What the lines of a script open and mount, and since which line a cause holds. They are answered once more, in a
/// world of their own.
pub fn earlier_lines<'a>(
    version: Version,
    alloc: Global,
    script: &[u8],
    cause: Option<Cause<'a>>,
) -> Earlier<'a> {
    let mut earlier = Earlier {
        makings: Vec::new(alloc),
        cause,
        held: false,
        began: None,
        lines: 0,
        failed: false,
    };
    match Kernel::opening(alloc) {
        Ok(kernel) => earlier.record_all(version, alloc, kernel, script),
        Err(_) => earlier.failed = true,
    }
    earlier
}
