//! A call that a rule refuses, and the places at which the rule looks.
use vt_causes::{About, Cause, Walks};
use vt_cred::{Flags, Rights};
use vt_location::Location;
use vt_looks::Look;
use vt_node::Kind;
use vt_ns::World;
use vt_request::{Access, Call, CallKind, DescriptorCall, LookCall, TaskCall};
use vt_rules::{is_directory, is_elsewhere, is_kind, is_no_root, may};
use vt_spec::errors::Rule;
use vt_tasks::Task;

// The rights that an open file gives.
fn opened(access: Access) -> Rights {
    match access {
        Access::Read => Rights::READ,
        Access::Write => Rights::WRITE,
        Access::ReadWrite => Rights::READ.union(Rights::WRITE),
    }
}

/// A call that a rule refuses, in the world before it.
#[derive(Clone, Copy)]
pub struct Refusal<'a> {
    pub world: &'a World,
    pub who: &'a Task,
    pub call: &'a Call<'a>,
    pub rule: Rule,
    pub walks: Walks,
    /// The word at which the first walk came to its end that leads nowhere.
    pub word: &'a [u8],
}

impl<'a> Refusal<'a> {
    /// Words about the call, in which the caller may stand.
    pub(crate) fn told(&self, words: &'static str) -> Cause<'a> {
        Cause {
            word: self.word,
            wanted: self.wanted(),
            ..Cause::new(About::Rule(self.rule), words, &self.who.name)
        }
    }

    /// The same about an object.
    pub(crate) fn told_of(&self, words: &'static str, at: Location) -> Cause<'a> {
        self.told(words).found_at(at)
    }

    // The rights that the call needs of its object, or of the directory of a name that it makes or takes away.
    fn wanted(&self) -> Rights {
        match self.call {
            Call::Look(LookCall::Ls { .. } | LookCall::Read { .. }) => Rights::READ,
            Call::Look(LookCall::Exec { .. })
            | Call::Task(TaskCall::Chdir { .. } | TaskCall::Chroot { .. }) => Rights::EXECUTE,
            Call::Descriptor(DescriptorCall::Open { access, .. })
                if self.walks.first_end().is_some() => { opened(*access) }
            _ => Rights::WRITE,
        }
    }

    // The directories and objects that the call changes or looks at, each through its mount.
    fn targets(&self) -> [Option<Location>; 3] {
        let walks = &self.walks;
        match self.call.kind() {
            CallKind::Mkdir
            | CallKind::Symlink
            | CallKind::Whiteout
            | CallKind::Unlink
            | CallKind::Rmdir => [walks.first_directory(), None, None],
            CallKind::Link => [walks.second_directory(), None, None],
            // A directory that gets another parent is changed too: its `..`.
            CallKind::Rename => [
                walks.first_directory(),
                walks.second_directory(),
                walks.first_end(),
            ],
            CallKind::Write | CallKind::Open => {
                [walks.first_end().or(walks.first_directory()), None, None]
            }
            _ => [walks.first_end(), None, None],
        }
    }

    // Where the caller's root is, if the call changes it.
    fn root_changed(&self) -> Option<Location> {
        match self.call.kind() {
            CallKind::PivotRoot => Some(self.who.root),
            _ => None,
        }
    }

    // All places at which the rule looks, in the order in which causes are named.
    fn places(&self) -> [Option<Location>; 5] {
        let [one, two, three] = self.targets();
        let first = self.walks.first_end();
        let second = self.walks.second_end();
        match self.rule {
            Rule::F1 | Rule::F2 | Rule::C1 | Rule::B1 => [one, two, three, None, None],
            Rule::L1 => [one, two, first, second, None],
            Rule::E1 if self.call.kind() == CallKind::Link => [second, None, None, None, None],
            Rule::E2 | Rule::E3 | Rule::E4 => [second, first, None, None, None],
            Rule::W3 => [first, second, None, None, None],
            Rule::M2 => [first, second, self.root_changed(), None, None],
            Rule::M7 => [first, self.root_changed(), None, None, None],
            _ => [first, None, None, None, None],
        }
    }

    // Whether the rule refuses the call by what it finds at a place.
    fn fails_at(&self, at: Location) -> bool {
        let (world, who) = (self.world, self.who);
        match self.rule {
            Rule::C1 => !may(world, who, at, self.wanted()),
            Rule::B1 => !world.mounter_may(at, self.wanted()),
            Rule::E2 | Rule::E7 => is_directory(world, at),
            Rule::W3 | Rule::E3 => !is_directory(world, at),
            Rule::E4 => world.is_nonempty(at),
            Rule::E9 => is_kind(world, at, Kind::White),
            Rule::M2 => is_elsewhere(world, who, at),
            Rule::M7 => is_no_root(world, at),
            Rule::F1 | Rule::F2 | Rule::F3 | Rule::L1 => self.told_of("", at).holds(world),
            _ => true,
        }
    }

    /// The first place at which the rule refuses the call.
    pub(crate) fn place(&self) -> Option<Location> {
        for place in self.places() {
            if let Some(at) = place {
                if self.fails_at(at) {
                    return Some(at);
                }
            }
        }
        None
    }
}
