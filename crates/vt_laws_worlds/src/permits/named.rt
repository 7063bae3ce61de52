//! Which numbers a world has after a permit.
ghost use Rattle.vt_laws_worlds.specs.Permits.Named.{PermitsKeepToNumbers, SameKeepsToNumbersToo};

/// What a permit of an existing task leaves keeps to `numbers` to which any world keeps, if those handed in and those
/// of the permit are among them. So does each plain world that is the `same`.
///
/// The permit need not be given. Of `mount overlay` this says nothing.
pub fn permits_keep_to_numbers()
    ensures numbers { PermitsKeepToNumbers }
    ensures same { SameKeepsToNumbersToo }
{}
