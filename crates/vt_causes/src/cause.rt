//! A cause: words, and what stands in them.
use crate::events::{is_shared, receives};
use crate::uses::{Held, held_by};
use vt_cred::{Caps, Rights};
use vt_location::{Location, Propagation};
use vt_looks::{Look, LookAtMounts};
use vt_ns::World;
use vt_request::TaskName;
use vt_spec::errors::Rule;

/// What a cause is about.
#[derive(Clone, Copy)]
pub enum About {
    /// A rule, which refuses a line.
    Rule(Rule),
    /// Of tasks that are not sealed off: another task, in the namespace of a mount.
    Namespace,
    /// The same: a mount that receives events of another one.
    Events,
    /// The same: a mount that shows a filesystem.
    Mount,
    /// The same: what a task has at a place.
    Held(Held),
}

/// Why a rule refuses a line, or why tasks are not sealed off.
#[derive(Clone, Copy)]
pub struct Cause<'a> {
    pub about: About,
    /// Plain words. `{NAME}` is replaced by the part of this name.
    pub words: &'static str,
    /// The caller, or the task that the rule looked for.
    pub task: &'a TaskName,
    /// What the rule looked at, and what stands beside it.
    pub at: Option<Location>,
    pub other: Option<Location>,
    /// What the caller lacks.
    pub capability: Caps,
    /// The rights that the call needs, or for which a mount is in use.
    pub wanted: Rights,
    /// A word of a path or of options.
    pub word: &'a [u8],
    /// A number, and the most or the least that there may be.
    pub count: u64,
    pub limit: u64,
}

impl<'a> Cause<'a> {
    /// Words alone, in which a task may stand.
    pub fn new(about: About, words: &'static str, task: &'a TaskName) -> Self {
        Cause {
            about,
            words,
            task,
            at: None,
            other: None,
            capability: Caps::empty(),
            wanted: Rights::SEARCH,
            word: &[],
            count: 0,
            limit: 0,
        }
    }

    /// The same with what the rule looked at.
    pub fn found_at(self, at: Location) -> Self {
        Cause {
            at: Some(at),
            ..self
        }
    }

    /// The same with what stands beside it.
    pub fn beside(self, other: Location) -> Self {
        Cause {
            other: Some(other),
            ..self
        }
    }

    /// The same with a number and the most or the least that there may be.
    pub fn counted(self, count: usize, limit: usize) -> Self {
        Cause {
            count: count as u64,
            limit: limit as u64,
            ..self
        }
    }

    // What the task lacks or has: a capability, or a descriptor.
    fn holds_of_task(&self, rule: Rule, world: &World) -> bool {
        let Some(who) = world.task(self.task) else {
            return rule == Rule::S2;
        };
        match rule {
            Rule::K1 => !who.cred.has(self.capability),
            Rule::S4 => {
                let number = u8::try_from(self.count).unwrap_or_default();
                // An object stands in the words of a descriptor that is open.
                who.descriptors.get(number).is_some() == self.at.is_some()
            }
            _ => false,
        }
    }

    // The same of an object.
    fn holds_of_object(&self, rule: Rule, world: &World) -> bool {
        let Some(at) = self.at else {
            return false;
        };
        match rule {
            Rule::F2 => world.is_overlay(at),
            Rule::L1 => world.is_locked(at),
            _ => world.is_removed(at),
        }
    }

    // Whether this mount point is on the object.
    fn stands_there(&self, point: Option<Location>) -> bool {
        match (point, self.at) {
            (Some(point), Some(at)) => point.node.is_same(at.node),
            _ => false,
        }
    }

    // The same of the mount of a place.
    fn holds_of_mount(&self, rule: Rule, world: &World, place: Option<Location>) -> bool {
        let Some(place) = place else {
            return false;
        };
        let Some(mount) = world.mount(place.mount) else {
            return false;
        };
        match rule {
            Rule::F1 => mount.flags.is_read_only(),
            Rule::F3 => mount.flags.is_noexec(),
            Rule::W9 => mount.flags.is_nosymfollow(),
            Rule::M2 => mount.namespace.is_none(),
            Rule::M3 => mount.propagation == Propagation::Unbindable,
            Rule::M8 if self.wanted == Rights::WRITE => world.is_written_through(place.mount),
            Rule::M8 => matches!(world.is_busy(place.mount), Ok(true)),
            Rule::P1 => self.stands_there(mount.mount_point),
            _ => is_shared(&mount),
        }
    }

    // The same of why tasks are not sealed off.
    fn holds_of_members(&self, world: &World) -> Option<bool> {
        match self.about {
            About::Namespace => {
                let namespace = world.mount(self.at?.mount)?.namespace?;
                Some(world.task(self.task)?.namespace == namespace)
            }
            About::Events => {
                let (one, from) = (
                    world.mount(self.at?.mount)?,
                    world.mount(self.other?.mount)?,
                );
                Some(receives(world, &one, &from))
            }
            About::Mount => Some(world.mount(self.other?.mount)?.namespace.is_some()),
            About::Held(held) => Some(held_by(world.task(self.task)?, held)? == self.other?),
            About::Rule(_) => None,
        }
    }

    // The same of a rule.
    fn holds_of_rule(&self, rule: Rule, world: &World) -> bool {
        match rule {
            Rule::S2 | Rule::S4 | Rule::K1 => self.holds_of_task(rule, world),
            Rule::F2 | Rule::L1 | Rule::W8 => self.holds_of_object(rule, world),
            Rule::M4 | Rule::M5 | Rule::M12 | Rule::P1 => {
                self.holds_of_mount(rule, world, self.other)
            }
            _ => self.holds_of_mount(rule, world, self.at),
        }
    }

    /// Whether that holds in a world which words with `{since}` say: it does in the one before the line.
    pub fn holds(&self, world: &World) -> bool {
        match self.about {
            About::Rule(rule) => self.holds_of_rule(rule, world),
            _ => self.holds_of_members(world).unwrap_or_default(),
        }
    }
}

/// That there is no task of a name: S2.
pub fn no_task<'a>(name: &'a TaskName) -> Cause<'a> {
    Cause::new(
        About::Rule(Rule::S2),
        "there is no task {task}{since}",
        name,
    )
}
