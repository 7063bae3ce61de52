//! Whether a script is bad, and how many scripts have failed.
ghost use Rattle.std.specs.Prelude.{◌↔◌, ◌≡◌, ◌⊎◌, ◌<◌, true};
ghost use Rattle.vt_verdict.specs.Counts.{counted};

/// How many lines of a script a run refuses by S1, and how many warnings there are.
#[derive(Clone, Copy)]
pub struct Counts {
    pub errors: u64,
    pub warnings: u64,
}

impl Counts {
    /// Whether the script is bad: a line is refused, or there is a warning where warnings are errors.
    pub fn is_bad(self, strict: bool) -> bool
        ensures { (result ≡ true) ↔ ((0 < self.errors) ⊎ ((strict ≡ true) × (0 < self.warnings))) }
    {
        self.errors > 0 || (strict && self.warnings > 0)
    }
}

/// How many scripts have passed, and how many have failed. A file that is none of scripts counts as one that fails.
#[derive(Clone, Copy)]
pub struct Totals {
    pub passed: u64,
    pub failed: u64,
}

impl Totals {
    /// None yet.
    pub fn new() -> Self
        ensures { result ≡ record { passed = 0; failed = 0 } }
    {
        Totals {
            passed: 0,
            failed: 0,
        }
    }

    /// Counts a script with this many lines that are answered otherwise than is wanted: it passes just if there is none.
    pub fn count(&mut self, differences: usize)
        ensures { self.new ≡ counted differences self.old }
    {
        if differences == 0 {
            self.passed = self.passed.saturating_add(1);
        } else {
            self.failed = self.failed.saturating_add(1);
        }
    }
}
