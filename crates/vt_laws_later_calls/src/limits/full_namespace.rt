//! Worked examples, by induction over their lines, in each version of the language.
ghost use Rattle.vt_laws_later_calls.specs.Limits.FullNamespaces.{FillsItsNamespace, FullNamespaceRefuses, FullReceiverRefuses, LastOfManyMountsIsRefused};

/// A script stacks mounts on a new directory: lines are answered `ok` up to 4,095 mounts (`within`), M9 refuses each
/// further one (`beyond`), and the `last` of 4,096.
pub fn a_namespace_is_filled_line_by_line()
    ensures within { FillsItsNamespace }
    ensures beyond { FullNamespaceRefuses }
    ensures last { LastOfManyMountsIsRefused }
{}

/// M9 refuses a mount onto a shared mount while the namespace of its peer has 4,096 mounts. It is granted once one of
/// these is unmounted.
pub fn a_full_receiver_refuses_a_mount()
    ensures { FullReceiverRefuses }
{}
