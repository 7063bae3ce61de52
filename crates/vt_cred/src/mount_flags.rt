//! The flags of one mount: mount(2).
ghost use Rattle.std.specs.Prelude.{◌≡◌, ⊤};
ghost use Rattle.vt_spec.specs.Language.Calls.{plain_flags};
ghost use Rattle.vt_cred.specs.MountFlags.{flag_bits, flag_table, flags_of};

use bitflags::{Flag, Flags, bitflag_items};

/// The flags of one mount, by their names in mount(2).
#[derive(Clone, Copy, Debug, PartialEq, Eq, Hash)]
pub struct MountFlags(u8);

bitflag_items! {
    impl MountFlags: u8 {
        const MS_RDONLY = 1;
        const MS_NOEXEC = 2;
        const MS_NOSYMFOLLOW = 4;
    }
}

impl Flags for MountFlags {
    type Bits = u8;

    ghost exact = { ⊤ };

    ghost table = { flag_table };

    ghost set_of = { flag_bits };

    fn flags<'a>() -> &'a [Flag<MountFlags>] {
        MountFlags::FLAGS
    }

    fn bits(&self) -> u8 {
        self.0
    }

    fn from_bits_retain(bits: u8) -> MountFlags {
        MountFlags(bits)
    }
}

impl MountFlags {
    /// No flag: a mount that may be written to, whose files may be executed, and whose symlinks are followed.
    pub fn plain() -> MountFlags
        ensures { flags_of result ≡ plain_flags }
    {
        MountFlags(0)
    }

    /// Whether nothing may be changed through the mount: `MS_RDONLY`.
    pub fn is_read_only(self) -> bool
        ensures { result ≡ (flags_of self).read_only }
    {
        self.0 & 1 == 1
    }

    /// Whether no file may be executed through the mount: `MS_NOEXEC`.
    pub fn is_noexec(self) -> bool
        ensures { result ≡ (flags_of self).noexec }
    {
        self.0 & 2 == 2
    }

    /// Whether no symlink is followed on the mount: `MS_NOSYMFOLLOW`.
    pub fn is_nosymfollow(self) -> bool
        ensures { result ≡ (flags_of self).nosymfollow }
    {
        self.0 & 4 == 4
    }
}
