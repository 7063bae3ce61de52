//! Lower-case hexadecimal digits, of which an escape has two.
ghost use Rattle.std.specs.Prelude.{◌≡◌, ◌+◌, ◌*◌, ◌/◌, ◌%◌};
ghost use Rattle.vt_spec.specs.Language.Script.{hex_value};
ghost use Rattle.vt_spec.specs.Language.Printed.{hex_digit};

use std::marker::Model;

/// The value of one hexadecimal digit, at most 15.
#[derive(Clone, Copy, Debug, PartialEq, Eq)]
pub struct HexDigit {
    value: u8,
}

impl Model for HexDigit {
    ghost use Rattle.std.specs.Prelude.{ℕ, ◌≤◌};

    ghost Value = { ℕ };

    ghost view = { λ digit. digit.value };

    ghost invariant = { λ digit. digit.value ≤ 15 };

    ghost inverse = { λ n. record { value = n } };
}

impl HexDigit {
    /// The digit that a byte spells. Upper-case letters spell none.
    pub fn from_byte(byte: u8) -> Option<Self>
        ensures { result ≡ hex_value byte }
    {
        match byte {
            b'0'..=b'9' => Some(HexDigit { value: byte - b'0' }),
            b'a'..=b'f' => Some(HexDigit {
                value: byte - b'a' + 10,
            }),
            _ => None,
        }
    }

    /// The byte that spells it.
    pub fn to_byte(self) -> u8
        ensures { result ≡ hex_digit self }
    {
        if self.value < 10 {
            b'0' + self.value
        } else {
            b'a' + (self.value - 10)
        }
    }

    /// The two digits of a byte, the high one first.
    pub fn pair_of(byte: u8) -> (Self, Self)
        ensures high { result.0 ≡ byte / 16 }
        ensures low { result.1 ≡ byte % 16 }
    {
        (HexDigit { value: byte / 16 }, HexDigit { value: byte % 16 })
    }

    /// The byte that this digit and a lower one make.
    pub fn with_low(self, low: Self) -> u8
        ensures { result ≡ 16 * self + low }
    {
        16 * self.value + low.value
    }
}
