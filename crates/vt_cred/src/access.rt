//! The rules of access: path_resolution(7), "Permissions", and capabilities(7).
ghost use Rattle.std.specs.Prelude.{◌≡◌, ◌↔◌, IsTrue};
ghost use Rattle.vt_spec.specs.Rights.{allows, owns, may_delete_sticky, masked, class_bits, owner_bits, group_bits, other_bits, has_execute_bit, override_grants, read_search_grants, is_sticky};
ghost use Rattle.vt_cred.specs.Rights.{right_bits};
ghost use Rattle.vt_cred.specs.Access.{Allows, Owns, MayDeleteSticky, IsWithout};

use crate::capabilities::Caps;
use crate::credentials::Cred;
use crate::requests::Rights;
use bitflags::Flags;
use vt_spec::attributes::{Attr, Kind, Mode};

fn owner_rights(mode: Mode) -> Rights
    ensures { right_bits result ≡ owner_bits mode }
{
    Rights::from_bits_retain((mode.bits() >> 6 & 7) as u8)
}

fn group_rights(mode: Mode) -> Rights
    ensures { right_bits result ≡ group_bits mode }
{
    Rights::from_bits_retain((mode.bits() >> 3 & 7) as u8)
}

fn other_rights(mode: Mode) -> Rights
    ensures { right_bits result ≡ other_bits mode }
{
    Rights::from_bits_retain((mode.bits() & 7) as u8)
}

// The rights of the one class that counts for the caller.
fn class_rights(cred: &Cred, attr: &Attr) -> Rights
    ensures { right_bits result ≡ class_bits cred.now attr.now }
{
    if cred.uid() == attr.uid {
        return owner_rights(attr.mode);
    }
    if cred.is_member(attr.gid) {
        return group_rights(attr.mode);
    }
    other_rights(attr.mode)
}

fn has_execute_bit(mode: Mode) -> bool
    ensures { result ≡ has_execute_bit mode }
{
    owner_rights(mode).contains(Rights::EXECUTE)
        || group_rights(mode).contains(Rights::EXECUTE)
        || other_rights(mode).contains(Rights::EXECUTE)
}

fn override_grants(attr: &Attr, kind: Kind, wanted: Rights) -> bool
    ensures { result ≡ override_grants attr.now kind (right_bits wanted) }
{
    kind == Kind::Dir || !wanted.contains(Rights::EXECUTE) || has_execute_bit(attr.mode)
}

fn read_search_grants(kind: Kind, wanted: Rights) -> bool
    ensures { result ≡ read_search_grants kind (right_bits wanted) }
{
    if kind == Kind::Dir {
        return Rights::READ.union(Rights::SEARCH).contains(wanted);
    }
    Rights::READ.contains(wanted)
}

/// Whether the caller has all of the wanted rights on an object, asked as one request.
pub fn allows(cred: &Cred, attr: &Attr, kind: Kind, wanted: Rights) -> bool
    ensures value { result ≡ allows cred.now attr.now kind (right_bits wanted) }
    ensures meaning { IsTrue result ↔ Allows cred.now attr.now kind (right_bits wanted) }
{
    class_rights(cred, attr).contains(wanted)
        || (cred.has(Caps::CAP_DAC_OVERRIDE) && override_grants(attr, kind, wanted))
        || (cred.has(Caps::CAP_DAC_READ_SEARCH) && read_search_grants(kind, wanted))
}

/// Whether the caller counts as the owner of an object: chmod(2).
pub fn owns(cred: &Cred, attr: &Attr) -> bool
    ensures value { result ≡ owns cred.now attr.now }
    ensures meaning { IsTrue result ↔ Owns cred.now attr.now }
{
    cred.uid() == attr.uid || cred.has(Caps::CAP_FOWNER)
}

fn is_sticky(mode: Mode) -> bool
    ensures { result ≡ is_sticky mode }
{
    mode.bits() >> 9 & 1 == 1
}

/// Whether the sticky bit of a directory lets the caller remove, rename or replace an object in it:
/// EPERM of unlink(2) and rename(2).
pub fn may_delete_sticky(cred: &Cred, directory: &Attr, object: &Attr) -> bool
    ensures value { result ≡ may_delete_sticky cred.now directory.now object.now }
    ensures meaning { IsTrue result ↔ MayDeleteSticky cred.now directory.now object.now }
{
    !is_sticky(directory.mode)
        || cred.uid() == object.uid
        || cred.uid() == directory.uid
        || cred.has(Caps::CAP_FOWNER)
}

/// The mode of a new object: the mode asked for without the bits of the umask, as in umask(2).
pub fn masked(umask: Mode, asked: Mode) -> Mode
    ensures value { result ≡ masked umask asked }
    ensures meaning { IsWithout asked umask result }
{
    Mode::new(asked.bits() & !umask.bits()).unwrap()
}
