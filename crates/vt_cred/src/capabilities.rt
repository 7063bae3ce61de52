//! Capabilities, as a set of bits: capabilities(7).
ghost use Rattle.std.specs.Prelude.{◌≡◌, ⊤};
ghost use Rattle.vt_spec.specs.Rights.{all_capabilities, without};
ghost use Rattle.vt_cred.specs.Caps.{capability_bits, capability_table};
ghost use Rattle.vt_cred.specs.Access.{IsWithout};

use bitflags::{Flag, Flags, bitflag_items};

/// A set of capabilities of this profile, by their names in capabilities(7).
///
/// `contains`, `union` and the other methods of `Flags` have contracts, and the operators have none.
#[derive(Clone, Copy, Debug, PartialEq, Eq, Hash)]
pub struct Caps(u8);

bitflag_items! {
    impl Caps: u8 {
        const CAP_CHOWN = 1;
        const CAP_DAC_OVERRIDE = 2;
        const CAP_DAC_READ_SEARCH = 4;
        const CAP_FOWNER = 8;
        const CAP_SETGID = 16;
        const CAP_SETUID = 32;
        const CAP_SYS_CHROOT = 64;
        const CAP_SYS_ADMIN = 128;
    }
}

impl Flags for Caps {
    type Bits = u8;

    ghost exact = { ⊤ };

    ghost table = { capability_table };

    ghost set_of = { capability_bits };

    fn flags<'a>() -> &'a [Flag<Caps>] {
        Caps::FLAGS
    }

    fn bits(&self) -> u8 {
        self.0
    }

    fn from_bits_retain(bits: u8) -> Caps {
        Caps(bits)
    }
}

impl Caps {
    /// Every capability of this profile.
    #[tactic(auto, unfolding(bitflags::specs::Sets::known_from))]
    pub fn all() -> Caps
        ensures { capability_bits result ≡ all_capabilities }
    {
        <Caps as Flags>::all()
    }

    /// No capability.
    pub fn empty() -> Caps
        ensures { capability_bits result ≡ 0 }
    {
        <Caps as Flags>::empty()
    }

    /// The capabilities of this set that are not dropped.
    pub fn without(self, dropped: Caps) -> Caps
        ensures value { capability_bits result ≡ without (capability_bits self) (capability_bits dropped) }
        ensures meaning { IsWithout (capability_bits self) (capability_bits dropped) (capability_bits result) }
    {
        Caps(self.0 & !dropped.0)
    }
}
