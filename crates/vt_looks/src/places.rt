//! The last words of paths, and the places that they name: where the walks of calls on names end.
ghost use Rattle.std.specs.Prelude.{◌≡◌};
ghost use Rattle.vt_spec.specs.Machine.Walking.{last_word, is_no_word, is_special, name_of};
ghost use Rattle.vt_looks.specs.Places.{last_of};

use vt_location::Location;

/// The last word of a path, as a call that names an object takes it. A path of slashes alone has none.
#[derive(Clone, Copy, Debug)]
pub enum LastWord<'a> {
    NoWord,
    Dot,
    DotDot,
    Named(&'a [u8]),
}

impl<'a> LastWord<'a> {
    /// This word, as the last of a path.
    #[inline(always)]
    pub fn of(word: &'a [u8]) -> LastWord<'a>
        ensures { last_of result ≡ last_word word.now }
    {
        match word {
            [b'.'] => LastWord::Dot,
            [b'.', b'.'] => LastWord::DotDot,
            _ => LastWord::Named(word),
        }
    }

    /// Whether it names no entry of a directory.
    pub fn is_special(&self) -> bool
        ensures { result ≡ is_special (last_of self.now) }
    {
        match self {
            LastWord::Named(_) => false,
            _ => true,
        }
    }

    /// Whether there is none.
    pub fn is_no_word(&self) -> bool
        ensures { result ≡ is_no_word (last_of self.now) }
    {
        matches!(self, LastWord::NoWord)
    }

    /// The name; empty for a word that names no entry.
    pub fn name(&self) -> &'a [u8]
        ensures { result.now ≡ name_of (last_of self.now) }
    {
        match self {
            LastWord::Named(name) => name,
            _ => &[],
        }
    }
}

/// Where a parent walk ends: the directory, the last word in it, the object there, if any, and whether a slash follows
/// the word.
#[derive(Clone, Copy, Debug)]
pub struct Place<'a> {
    pub parent: Location,
    pub last: LastWord<'a>,
    pub object: Option<Location>,
    pub slash: bool,
}

/// The place of a name that exists: as `Place`, with an object.
#[derive(Clone, Copy, Debug)]
pub struct OldPlace<'a> {
    pub parent: Location,
    pub last: LastWord<'a>,
    pub object: Location,
    pub slash: bool,
}
