//! JSON as it is written.
ghost use Rattle.std.specs.Prelude.{◌≡◌, ◌≤◌, ◌++◌, OnOk};
ghost use Rattle.vt_spec.specs.Language.Printed.{hex_digit};
ghost use Rattle.vt_written.specs.Json.{json_byte, json_text};

use std::alloc::AllocError;

// The digit of the value of four bits.
fn hex_digit(value: u8) -> u8
    requires { value ≤ 15 }
    ensures { result ≡ hex_digit value }
{
    if value < 10 {
        b'0' + value
    } else {
        b'a' + (value - 10)
    }
}

// Appends a byte of a text: one that is not printed as `\xhh`.
fn push_byte(text: &mut Vec<u8>, byte: u8) -> Result<(), AllocError>
    ensures { OnOk result (text.new.items ≡ text.old.items ++ json_byte byte) }
{
    match byte {
        b'"' | b'\\' => text.extend_from_slice(&[b'\\', byte]),
        0x20..=0x7e => text.extend_from_slice(&[byte]),
        _ => text.extend_from_slice(&[
            b'\\',
            b'\\',
            b'x',
            hex_digit(byte / 16),
            hex_digit(byte % 16),
        ]),
    }
}

/// Appends bytes as a text, between its marks.
pub fn push_text(text: &mut Vec<u8>, bytes: &[u8]) -> Result<(), AllocError>
    ensures { OnOk result (text.new.items ≡ text.old.items ++ json_text bytes.now) }
{
    text.push(b'"')?;
    for byte in bytes {
        push_byte(text, *byte)?;
    }
    text.push(b'"')?;
    Ok(())
}
