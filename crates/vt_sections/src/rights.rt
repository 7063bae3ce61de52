//! The class of bits of an object that counts for a caller.
use serde_json::Value;
use std::alloc::{AllocError, Global};
use vt_check::draft::Draft;
use vt_check::object::Object;
use vt_cred::{Attr, Caps, Cred, Kind};

static BITS: [&str; 8] = ["---", "--x", "-w-", "-wx", "r--", "r-x", "rw-", "rwx"];

/// Rights, as ls(1) writes the bits of a class.
pub fn bits_named(bits: u8) -> &'static str {
    BITS.get(usize::from(bits & 7)).copied().unwrap_or_default()
}

// The class of bits of an object that counts for a caller.
#[derive(Clone, Copy)]
struct Class {
    name: &'static str,
    bits: u8,
    // The capability by which alone the caller may search it, if it is such a directory.
    capability: Option<&'static str>,
}

// The class of the caller, and its bits.
fn bits_of(cred: &Cred, attr: &Attr) -> (&'static str, u16) {
    let bits = attr.mode.bits();
    if cred.uid() == attr.uid {
        return ("owner", bits >> 6 & 7);
    }
    if cred.is_member(attr.gid) {
        return ("group", bits >> 3 & 7);
    }
    ("other", bits & 7)
}

// The capability by which a directory is searched whose bits do not let the caller.
fn search_capability(cred: &Cred) -> Option<&'static str> {
    if cred.has(Caps::CAP_DAC_OVERRIDE) {
        return Some("CAP_DAC_OVERRIDE");
    }
    if cred.has(Caps::CAP_DAC_READ_SEARCH) {
        return Some("CAP_DAC_READ_SEARCH");
    }
    None
}

// The class of bits of an object that counts for a caller.
fn class_of(cred: &Cred, attr: &Attr, kind: Kind) -> Class {
    let (name, bits) = bits_of(cred, attr);
    let is_searched = kind == Kind::Dir && bits & 1 == 0;
    Class {
        name,
        bits: u8::try_from(bits).unwrap_or_default(),
        capability: if is_searched {
            search_capability(cred)
        } else {
            None
        },
    }
}

/// Appends the class of bits that counts for a caller, its bits, and for a directory without search permission the
/// capability that gives it.
pub fn push_rights(text: &mut Draft, cred: &Cred, attr: &Attr, kind: Kind) {
    let class = class_of(cred, attr, kind);
    text.push(class.name);
    text.push_char(' ');
    text.push(bits_named(class.bits));
    if let Some(capability) = class.capability {
        text.push(", ");
        text.push(capability);
    }
}

/// The same as an object.
pub fn rights_value(
    alloc: Global,
    cred: &Cred,
    attr: &Attr,
    kind: Kind,
) -> Result<Value, AllocError> {
    let class = class_of(cred, attr, kind);
    let mut object = Object::new(alloc);
    object.put_text("class", class.name);
    object.put_text("rights", bits_named(class.bits));
    match class.capability {
        Some(capability) => object.put_text("capability", capability),
        None => object.put("capability", Ok(Value::Null)),
    }
    object.end()
}
