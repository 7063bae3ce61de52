//! The rights of a request, as a set of bits: inode(7).
ghost use Rattle.std.specs.Prelude.{◌≡◌, ⊤};
ghost use Rattle.vt_cred.specs.Rights.{right_bits, right_table};

use bitflags::{Flag, Flags, bitflag_items};

/// The rights of one request, by their bits in a class of a mode: inode(7).
///
/// `contains`, `union` and the other methods of `Flags` have contracts, and the operators have none.
#[derive(Clone, Copy, Debug, PartialEq, Eq, Hash)]
pub struct Rights(u8);

bitflag_items! {
    impl Rights: u8 {
        const READ = 4;
        const WRITE = 2;
        const EXECUTE = 1;
    }
}

impl Flags for Rights {
    type Bits = u8;

    ghost exact = { ⊤ };

    ghost table = { right_table };

    ghost set_of = { right_bits };

    fn flags<'a>() -> &'a [Flag<Rights>] {
        Rights::FLAGS
    }

    fn bits(&self) -> u8 {
        self.0
    }

    fn from_bits_retain(bits: u8) -> Rights {
        Rights(bits)
    }
}

impl Rights {
    /// Execute, by its name for directories.
    pub const SEARCH: Rights = Rights::EXECUTE;
}
