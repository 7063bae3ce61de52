//! Identifiers of mounts and of peer groups.
ghost use Rattle.std.specs.Prelude.{◌≡◌, ℕ};

use vt_location::{GroupId, MountId};

/// An identifier: no other of its kind has its number, and they are in the order of their numbers.
pub trait Id: Copy {
    ghost number: { Self → ℕ };

    fn number(self) -> u64
        ensures { result ≡ number self };
}

impl Id for MountId {
    ghost number = { λ mount. mount.count };

    fn number(self) -> u64 {
        self.count
    }
}

impl Id for GroupId {
    ghost number = { λ group. group.count };

    fn number(self) -> u64 {
        self.count
    }
}
