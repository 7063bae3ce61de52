//! Causes of the rules on tasks: capabilities, descriptors, forks.
use crate::refusal::Refusal;
use vt_causes::Cause;
use vt_cred::{Caps, Flags};
use vt_request::{Call, DescriptorCall, ForkWords, LookCall, TaskCall, WriteCall};
use vt_rules::named;
use vt_tasks::{MAX_DEPTH, MAX_DESCRIPTORS, MAX_FORKS};

impl<'a> Refusal<'a> {
    // What the caller lacks to fork a child with these credentials.
    fn lacks_for_child(&self, child: &ForkWords) -> Caps {
        let cred = &self.who.cred;
        if child.uid != cred.uid() && !cred.has(Caps::CAP_SETUID) {
            return Caps::CAP_SETUID;
        }
        let is_regrouped = child.gid != cred.gid() || child.groups.as_slice() != cred.groups();
        if is_regrouped && !cred.has(Caps::CAP_SETGID) {
            return Caps::CAP_SETGID;
        }
        named(cred, child.caps).without(cred.caps())
    }

    // What the caller lacks.
    fn lacks(&self) -> Caps {
        match self.call {
            Call::Task(TaskCall::Chroot { .. }) => Caps::CAP_SYS_CHROOT,
            Call::Task(TaskCall::Setns { .. }) => Caps::CAP_SYS_ADMIN
                .union(Caps::CAP_SYS_CHROOT)
                .without(self.who.cred.caps()),
            Call::Task(TaskCall::Fork { words: Some(child) }) => self.lacks_for_child(child),
            _ => Caps::CAP_SYS_ADMIN,
        }
    }

    /// K1: the missing capability.
    pub(crate) fn of_capability(&self) -> Cause<'a> {
        Cause {
            capability: self.lacks(),
            ..self.told("{task} lacks {capability}{since}")
        }
    }

    /// S2: the task whose namespace was to be entered.
    pub(crate) fn of_namespace(&self) -> Option<Cause<'a>> {
        match self.call {
            Call::Task(TaskCall::Setns { task }) => Some(Cause {
                task,
                ..self.told("there is no task {task}{since}")
            }),
            _ => None,
        }
    }

    /// S3: how many descriptors are open.
    pub(crate) fn of_descriptors(&self) -> Cause<'a> {
        let words = "{task} has {count} open descriptors, and {limit} are the most";
        let count = self.who.descriptors.len();
        self.told(words).counted(count, MAX_DESCRIPTORS)
    }

    /// S4: the descriptor, which is not open, or not for this.
    pub(crate) fn of_descriptor(&self) -> Option<Cause<'a>> {
        let number = match self.call {
            Call::Look(LookCall::Pread { descriptor, .. })
            | Call::Write(WriteCall::Pwrite { descriptor, .. })
            | Call::Descriptor(DescriptorCall::Close { descriptor }) => *descriptor,
            _ => return None,
        };
        let cause = match self.who.descriptors.get(number) {
            None => self.told("descriptor {count} of {task} is not open{since}"),
            Some(file) => {
                let words = if file.access.reads() {
                    "descriptor {count} of {task} is open for reading alone{since}"
                } else {
                    "descriptor {count} of {task} is open for writing alone{since}"
                };
                self.told_of(words, file.location)
            }
        };
        Some(cause.counted(usize::from(number), MAX_DESCRIPTORS))
    }

    /// S6: how often the caller has forked, or how long its name is.
    pub(crate) fn of_forks(&self) -> Cause<'a> {
        let length = self.who.name.numbers().len();
        if self.who.forks >= MAX_FORKS {
            let words = "{task} has forked {count} times, and {limit} are the most";
            let forks = usize::from(self.who.forks);
            return self.told(words).counted(forks, usize::from(MAX_FORKS));
        }
        let words = "the name {task} has {count} numbers, and {limit} are the most";
        self.told(words).counted(length, MAX_DEPTH)
    }
}
