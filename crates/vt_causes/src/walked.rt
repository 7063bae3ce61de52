//! Where the walks along the paths of a call came to.
use vt_location::Location;
use vt_spec::errors::Rule;

/// The most symlinks of a path that are followed.
pub const MOST_LINKS: usize = 40;

/// Where a walk along a path came to.
#[derive(Clone, Copy)]
pub struct Walked {
    /// Where the path leads, if it leads somewhere.
    pub end: Option<Location>,
    /// Where its last word was looked for; the symlink itself where W7 or W9 does not let it be followed.
    pub directory: Location,
    /// The rule that stopped the walk.
    pub stopped: Option<Rule>,
}

/// Where the walks along the paths of a call came to, and that to a layer which is refused.
#[derive(Clone, Copy)]
pub struct Walks {
    pub first: Option<Walked>,
    pub second: Option<Walked>,
    pub layer: Option<Walked>,
}

// Where a walk ends.
fn end_of(walked: Option<Walked>) -> Option<Location> {
    walked?.end
}

// Where the last word of a path was looked for.
fn directory_of(walked: Option<Walked>) -> Option<Location> {
    Some(walked?.directory)
}

impl Walks {
    /// Before the first walk.
    pub fn new() -> Self {
        Walks {
            first: None,
            second: None,
            layer: None,
        }
    }

    /// Where the first path leads.
    pub fn first_end(&self) -> Option<Location> {
        end_of(self.first)
    }

    /// Where the second path leads.
    pub fn second_end(&self) -> Option<Location> {
        end_of(self.second)
    }

    /// Where the last word of the first path was looked for.
    pub fn first_directory(&self) -> Option<Location> {
        directory_of(self.first)
    }

    /// Where the last word of the second path was looked for.
    pub fn second_directory(&self) -> Option<Location> {
        directory_of(self.second)
    }

    /// Where the last path of the call leads.
    pub fn last_end(&self) -> Option<Location> {
        self.second_end().or(self.first_end())
    }

    /// All walks, in their order.
    pub fn all(&self) -> [Option<Walked>; 3] {
        [self.first, self.second, self.layer]
    }

    /// Where the first walk came to that leads nowhere.
    pub fn halted(&self) -> Option<Location> {
        for walked in self.all() {
            if let Some(walked) = walked {
                if walked.end.is_none() {
                    return Some(walked.directory);
                }
            }
        }
        None
    }
}
