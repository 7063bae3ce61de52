//! What stat(2) tells of an object: its kind, its owner and group, and its mode.
ghost use Rattle.std.specs.Prelude.{◌≡◌, ◌≤◌, ◌↔◌, IsSome, IfSome};

use std::marker::Model;

/// What an object is.
#[derive(Clone, Copy, Debug, PartialEq, Eq, Hash)]
pub enum Kind {
    Dir,
    File,
    Symlink,
    /// A whiteout, the character device 0/0 of an overlay's upper layer.
    White,
}

/// The sticky bit and the nine permission bits, at most 0o1777.
#[derive(Clone, Copy, Debug, PartialEq, Eq, Hash)]
pub struct Mode {
    bits: u16,
}

impl Model for Mode {
    ghost use Rattle.std.specs.Prelude.{ℕ, ◌≤◌};

    ghost Value = { ℕ };

    ghost view = { λ m. m.bits };

    ghost invariant = { λ m. m.bits ≤ 1023 };

    ghost inverse = { λ n. record { bits = n } };
}

impl Mode {
    /// A mode with these bits, if there are no others than the sticky bit and the permission bits.
    pub fn new(bits: u16) -> Option<Self>
        ensures valid { IsSome result ↔ (bits ≤ 1023) }
        ensures value { IfSome result (λ mode. mode ≡ bits) }
    {
        if bits <= 0o1777 {
            Some(Mode { bits })
        } else {
            None
        }
    }

    /// Its bits.
    pub fn bits(self) -> u16
        ensures value { result ≡ self }
        ensures limit { result ≤ 1023 }
    {
        self.bits
    }
}

/// The owner, group and mode of an object.
#[derive(Clone, Copy, Debug, PartialEq, Eq, Hash)]
pub struct Attr {
    pub uid: u32,
    pub gid: u32,
    pub mode: Mode,
}
