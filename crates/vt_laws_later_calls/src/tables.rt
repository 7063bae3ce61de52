//! What the list of mounts tells after an unshare.
ghost use Rattle.vt_laws_later_calls.specs.Tables.{UnshareGivesANamespace, UnshareThenMounts};

use vt_laws_mounts::propagation::after_unshare_the_table_reads_the_same;

/// After a granted `unshare` the list of mounts tells every task what it told it before (`told`). The caller's `own`
/// namespace did not exist before.
pub fn an_unshare_leaves_the_list_of_mounts()
    ensures told { UnshareThenMounts }
    ensures own { UnshareGivesANamespace }
{
    after_unshare_the_table_reads_the_same();
}
