//! Calls of members that change mount namespaces.
ghost use Rattle.vt_laws_members.specs.Namespaces.NamespaceChanges.{PivotsEndAlike, UnsharesEndAlike};

/// Each `pivot_root` ends alike (`pivot`), and each `unshare` does by one supply.
pub fn calls_of_theirs_that_change_namespaces_end_alike()
    ensures pivot { PivotsEndAlike }
    ensures unshare { UnsharesEndAlike }
{}
