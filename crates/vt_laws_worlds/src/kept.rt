//! What a permit keeps before the sweep.
ghost use Rattle.std.specs.Prelude.{nat_eq};
ghost use Rattle.vt_spec.specs.Machine.Invariants.{MountInvariants, NamespaceInvariants};
ghost use Rattle.vt_laws_worlds.specs.Worlds.Kept.{KeptByAllPermits};

/// By unused numbers, a permit of an existing task that fits (`IsFitPermit`) keeps the invariants of `mounts` and
/// `namespaces` before the sweep.
///
/// It fits if it is not for `mount overlay`, what it names exists, and no namespace has too many mounts afterwards.
pub fn permits_keep_mounts_and_namespaces()
    ensures mounts { KeptByAllPermits (MountInvariants nat_eq) }
    ensures namespaces { KeptByAllPermits (NamespaceInvariants nat_eq) }
{}
