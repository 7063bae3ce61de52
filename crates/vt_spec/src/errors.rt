//! Error numbers, and the rules that a refused call is refused by.
ghost use Rattle.std.specs.Prelude.{◌≡◌};
ghost use Rattle.vt_spec.specs.Errors.{number_of, errno_name, rule_name, errno_of, denial};

use std::alloc::AllocError;

/// An error number, by its name in errno(3).
#[derive(Clone, Copy, Debug, PartialEq, Eq, Hash)]
pub enum Errno {
    Eperm,
    Enoent,
    Esrch,
    Enxio,
    Ebadf,
    Enomem,
    Eacces,
    Ebusy,
    Eexist,
    Exdev,
    Enotdir,
    Eisdir,
    Einval,
    Emfile,
    Efbig,
    Enospc,
    Erofs,
    Enametoolong,
    Enotempty,
    Eloop,
}

impl Errno {
    /// The number that Linux gives it on x86-64.
    pub fn number(self) -> u8
        ensures { result ≡ number_of self }
    {
        match self {
            Errno::Eperm => 1,
            Errno::Enoent => 2,
            Errno::Esrch => 3,
            Errno::Enxio => 6,
            Errno::Ebadf => 9,
            Errno::Enomem => 12,
            Errno::Eacces => 13,
            Errno::Ebusy => 16,
            Errno::Eexist => 17,
            Errno::Exdev => 18,
            Errno::Enotdir => 20,
            Errno::Eisdir => 21,
            Errno::Einval => 22,
            Errno::Emfile => 24,
            Errno::Efbig => 27,
            Errno::Enospc => 28,
            Errno::Erofs => 30,
            Errno::Enametoolong => 36,
            Errno::Enotempty => 39,
            Errno::Eloop => 40,
        }
    }

    /// Its name, as `EPERM`.
    pub fn name(self) -> &'static str
        ensures { result.now ≡ errno_name self }
    {
        match self {
            Errno::Eperm => "EPERM",
            Errno::Enoent => "ENOENT",
            Errno::Esrch => "ESRCH",
            Errno::Enxio => "ENXIO",
            Errno::Ebadf => "EBADF",
            Errno::Enomem => "ENOMEM",
            Errno::Eacces => "EACCES",
            Errno::Ebusy => "EBUSY",
            Errno::Eexist => "EEXIST",
            Errno::Exdev => "EXDEV",
            Errno::Enotdir => "ENOTDIR",
            Errno::Eisdir => "EISDIR",
            Errno::Einval => "EINVAL",
            Errno::Emfile => "EMFILE",
            Errno::Efbig => "EFBIG",
            Errno::Enospc => "ENOSPC",
            Errno::Erofs => "EROFS",
            Errno::Enametoolong => "ENAMETOOLONG",
            Errno::Enotempty => "ENOTEMPTY",
            Errno::Eloop => "ELOOP",
        }
    }
}

/// A rule of the policy, by the letter and number that answers print.
///
/// The letters are the policy's order: script, capabilities, walk, entries, flags, layers, places,
/// credentials, overlays, the mounter, mounts. M1 is not used.
#[derive(Clone, Copy, Debug, PartialEq, Eq, Hash)]
pub enum Rule {
    S1,
    S2,
    S3,
    S4,
    S5,
    S6,
    K1,
    W1,
    W2,
    W3,
    W4,
    W5,
    W6,
    W7,
    W8,
    W9,
    E1,
    E2,
    E3,
    E4,
    E5,
    E6,
    E7,
    E8,
    E9,
    F1,
    F2,
    F3,
    L1,
    P1,
    P2,
    C1,
    C2,
    C3,
    O1,
    O2,
    O3,
    O4,
    O5,
    B1,
    B2,
    M2,
    M3,
    M4,
    M5,
    M6,
    M7,
    M8,
    M9,
    M10,
    M11,
    M12,
}

impl Rule {
    /// Its name, as `W6`.
    pub fn name(self) -> &'static str
        ensures { result.now ≡ rule_name self }
    {
        match self {
            Rule::S1 => "S1",
            Rule::S2 => "S2",
            Rule::S3 => "S3",
            Rule::S4 => "S4",
            Rule::S5 => "S5",
            Rule::S6 => "S6",
            Rule::K1 => "K1",
            Rule::W1 => "W1",
            Rule::W2 => "W2",
            Rule::W3 => "W3",
            Rule::W4 => "W4",
            Rule::W5 => "W5",
            Rule::W6 => "W6",
            Rule::W7 => "W7",
            Rule::W8 => "W8",
            Rule::W9 => "W9",
            Rule::E1 => "E1",
            Rule::E2 => "E2",
            Rule::E3 => "E3",
            Rule::E4 => "E4",
            Rule::E5 => "E5",
            Rule::E6 => "E6",
            Rule::E7 => "E7",
            Rule::E8 => "E8",
            Rule::E9 => "E9",
            Rule::F1 => "F1",
            Rule::F2 => "F2",
            Rule::F3 => "F3",
            Rule::L1 => "L1",
            Rule::P1 => "P1",
            Rule::P2 => "P2",
            Rule::C1 => "C1",
            Rule::C2 => "C2",
            Rule::C3 => "C3",
            Rule::O1 => "O1",
            Rule::O2 => "O2",
            Rule::O3 => "O3",
            Rule::O4 => "O4",
            Rule::O5 => "O5",
            Rule::B1 => "B1",
            Rule::B2 => "B2",
            Rule::M2 => "M2",
            Rule::M3 => "M3",
            Rule::M4 => "M4",
            Rule::M5 => "M5",
            Rule::M6 => "M6",
            Rule::M7 => "M7",
            Rule::M8 => "M8",
            Rule::M9 => "M9",
            Rule::M10 => "M10",
            Rule::M11 => "M11",
            Rule::M12 => "M12",
        }
    }

    /// The error that a call refused by this rule answers.
    pub fn errno(self) -> Errno
        ensures { result ≡ errno_of self }
    {
        match self {
            Rule::S1 | Rule::E5 | Rule::O2 => Errno::Einval,
            Rule::M2 | Rule::M3 | Rule::M4 | Rule::M5 => Errno::Einval,
            Rule::M7 | Rule::M10 | Rule::M12 => Errno::Einval,
            Rule::S2 => Errno::Esrch,
            Rule::S3 => Errno::Emfile,
            Rule::S4 => Errno::Ebadf,
            Rule::S5 => Errno::Enomem,
            Rule::S6 | Rule::M9 => Errno::Enospc,
            Rule::K1 | Rule::E7 | Rule::C2 | Rule::C3 | Rule::O4 | Rule::B2 => Errno::Eperm,
            Rule::W1 | Rule::W6 | Rule::W8 => Errno::Enoent,
            Rule::W2 => Errno::Enametoolong,
            Rule::W3 | Rule::E3 => Errno::Enotdir,
            Rule::W4 | Rule::W5 | Rule::E8 | Rule::F3 | Rule::C1 | Rule::B1 => Errno::Eacces,
            Rule::W7 | Rule::W9 | Rule::O5 | Rule::M6 => Errno::Eloop,
            Rule::E1 => Errno::Eexist,
            Rule::E2 => Errno::Eisdir,
            Rule::E4 => Errno::Enotempty,
            Rule::E6 => Errno::Efbig,
            Rule::E9 => Errno::Enxio,
            Rule::F1 | Rule::F2 => Errno::Erofs,
            Rule::L1 | Rule::P1 | Rule::O3 | Rule::M8 | Rule::M11 => Errno::Ebusy,
            Rule::P2 | Rule::O1 => Errno::Exdev,
        }
    }

    /// The refusal by this rule.
    pub fn denial(self) -> Deny
        ensures { result ≡ denial self }
    {
        Deny {
            errno: self.errno(),
            rule: self,
        }
    }
}

/// A refusal: the rule that failed first, and the error that it answers.
#[derive(Clone, Copy, Debug, PartialEq, Eq, Hash)]
pub struct Deny {
    pub errno: Errno,
    pub rule: Rule,
}

/// S5 (ENOMEM): an allocation failed.
impl From<AllocError> for Deny {
    ghost use Rattle.vt_spec.specs.declared.errors.Rule.TheVariants.{S5};

    ghost from_gives = { λ _ deny. deny ≡ denial S5 };

    fn from(_refused: AllocError) -> Deny {
        Rule::S5.denial()
    }
}
