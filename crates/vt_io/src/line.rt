//! The line that is being read.
ghost use Rattle.std.specs.Prelude.{◌≡◌, ℕ, ◌↔◌, List, [], ◌++◌, take, IfOk, IsTrue};

use std::alloc::{AllocError, Global};
use std::marker::Model;

/// The most bytes that a line of a script may have, without its newline.
pub const LONGEST_LINE: usize = 8192;

/// The first [`LONGEST_LINE`] bytes of a line, and whether there were more.
#[derive(Debug, Drop)]
pub struct LineBuffer {
    bytes: Vec<u8>,
    overlong: bool,
}

impl Model for LineBuffer {
    ghost use Rattle.std.specs.Prelude.{◌≡◌, ◌≤◌, true, vec_len, vec_capacity};
    ghost use Rattle.vt_io.specs.declared.line.TheConstants.{LONGEST_LINE};
    ghost use Rattle.vt_io.specs.LineBuffer.{LineSoFar};

    ghost Value = { LineSoFar };

    ghost view = { λ line. record { bytes = line.bytes.items; overlong = line.overlong } };

    ghost invariant = { λ line. (vec_len line.bytes ≤ LONGEST_LINE) × (LONGEST_LINE ≤ vec_capacity line.bytes)
        × (line.overlong ≡ true → vec_len line.bytes ≡ LONGEST_LINE) };
}

impl LineBuffer {
    ghost use Rattle.std.specs.Prelude.{◌≡◌, ℕ, ◌↔◌, List, [], ◌++◌, take, IfOk, IsTrue};
    ghost use Rattle.vt_io.specs.LineBuffer.{Holds, empty_line};

    /// An empty line, with all the memory that it will ever need.
    pub fn new(alloc: Global) -> Result<Self, AllocError>
        ensures empty { IfOk result (λ line. line ≡ empty_line) }
        ensures holds { IfOk result (Holds []) }
    {
        Ok(LineBuffer {
            bytes: Vec::with_capacity(alloc, LONGEST_LINE)?,
            overlong: false,
        })
    }

    /// Goes on with the line by these bytes.
    pub fn extend(&mut self, bytes: &[u8])
        ensures kept { self.new.bytes ≡ take LONGEST_LINE (self.old.bytes ++ bytes.now) }
        ensures holds { (line : List ℕ) → Holds line self.old → Holds (line ++ bytes.now) self.new }
    {
        let room = LONGEST_LINE - self.bytes.len();
        let (kept, over) = bytes.split_at(bytes.len().min(room));
        // Within the capacity it does not allocate.
        let _ = self.bytes.extend_from_slice(kept);
        self.overlong |= !over.is_empty();
    }

    /// Begins a new line.
    pub fn clear(&mut self)
        ensures empty { self.new ≡ empty_line }
        ensures holds { Holds [] self.new }
    {
        self.bytes.clear();
        self.overlong = false;
    }

    /// Whether the line has no byte.
    pub fn is_empty(&self) -> bool
        ensures empty { IsTrue result ↔ (self.now.bytes ≡ []) }
        ensures holds { (line : List ℕ) → Holds line self.now → IsTrue result ↔ (line ≡ []) }
    {
        self.bytes.is_empty()
    }

    /// The bytes that are kept: all of the line, if it is not too long.
    pub fn bytes(&self) -> &[u8]
        ensures { result.now ≡ self.now.bytes }
    {
        &self.bytes
    }

    /// Whether the line has more than [`LONGEST_LINE`] bytes.
    pub fn is_overlong(&self) -> bool
        ensures { result ≡ self.now.overlong }
    {
        self.overlong
    }
}
