//! The numbers of the grammar.
ghost use Rattle.std.specs.Prelude.{◌≡◌, ◌≤◌, ◌<◌, ◌+◌, ◌-◌, ◌&&◌, nat_le, nat_lt, if◌then◌else◌, IfSome};
ghost use Rattle.vt_spec.specs.Language.Script.{number_in, mode_word, child_number, identity_word, offset_word, descriptor_word};

use vt_spec::attributes::Mode;

/// The value of a digit below the base.
fn digit_below(base: u8, byte: u8) -> Option<u8>
    requires { base ≤ 10 }
    ensures { let is_digit = nat_le 48 byte && nat_lt byte (48 + base) in
        result ≡ (if is_digit then Some (byte - 48) else None) }
{
    if b'0' <= byte && byte < b'0' + base {
        Some(byte - b'0')
    } else {
        None
    }
}

/// A number of 1 to `most` digits, of at most `limit`. Leading zeros count as digits.
fn number(base: u8, most: usize, limit: u32, text: &[u8]) -> Option<u32>
    requires small_base { base ≤ 10 }
    requires some_base { 1 ≤ base }
    ensures { result ≡ number_in base most limit text.now }
{
    if text.is_empty() || most < text.len() {
        return None;
    }
    let mut value: u64 = 0;
    for byte in text {
        let digit = digit_below(base, *byte)?;
        value = u64::from(base) * value + u64::from(digit);
        if u64::from(limit) < value {
            return None;
        }
    }
    Some(value as u32)
}

/// A mode as chmod(1) takes it in octal: one to four digits, at most 1777.
pub fn mode_word(text: &[u8]) -> Option<Mode>
    ensures { result ≡ mode_word text.now }
{
    Mode::new(number(8, 4, 0o1777, text)? as u16)
}

/// The number of a child in a task's name: 1 to 64, without leading zeros.
pub fn child_number(text: &[u8]) -> Option<u8>
    ensures value { result ≡ child_number text.now }
    ensures range { IfSome result (λ k. (1 ≤ k) × (k ≤ 64)) }
{
    match text {
        [digit @ b'1'..=b'9'] => Some(*digit - b'0'),
        [tens @ b'1'..=b'9', ones @ b'0'..=b'9'] => {
            let number = 10 * (*tens - b'0') + (*ones - b'0');
            if number <= 64 { Some(number) } else { None }
        }
        _ => None,
    }
}

/// A user or a group: at most 4294967294, since -1 of chown(2) is none.
pub fn identity_word(text: &[u8]) -> Option<u32>
    ensures { result ≡ identity_word text.now }
{
    number(10, 10, u32::MAX - 1, text)
}

/// An offset or a size: at most 4294967295.
pub fn offset_word(text: &[u8]) -> Option<u32>
    ensures { result ≡ offset_word text.now }
{
    number(10, 10, u32::MAX, text)
}

/// The number of a descriptor: at most 255.
pub fn descriptor_word(text: &[u8]) -> Option<u8>
    ensures { result ≡ descriptor_word text.now }
{
    Some(number(10, 10, 255, text)? as u8)
}
