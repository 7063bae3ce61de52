//! The answers of a run beside those that are wanted.
ghost use Rattle.std.specs.Prelude.{List, Some, decimal, map, option_map, ℕ, ◌<◌, ◌^◌, ◌≡◌, ◌++◌, ◌∷◌, IfOk, MatchOption, OnErr, OnOk};
ghost use Rattle.vt_line.specs.Versions.{version_of};
ghost use Rattle.vt_verdict.specs.Compared.{Line, differing, line_of};
ghost use Rattle.vt_test.specs.Given.{AreTold, Compares, HasNoSpace, told_line, told_of};
ghost use Rattle.vt_test.specs.Tested.{ComparesAll, ComparesFile, ComparesSome};

use crate::suite::{Script, SuiteFault, scripts};
use memchr::memchr;
use std::alloc::{AllocError, Global};
use vt_lines::answers::answers;
use vt_lines::lines::first_line;
use vt_script::{Calls, Version};
pub use vt_verdict::compare::{Answer, Difference, differences, is_met};

// In how large pieces a script is read.
const PIECE: usize = 8192;

// The answer to a line that is none of the language.
const REFUSED: &[u8] = b"deny 22 EINVAL S1";

// What stands before the first space of a line, and what follows the space.
fn split_space(line: &[u8]) -> Option<(&[u8], &[u8])>
    ensures { MatchOption result (HasNoSpace line.now)
        (λ parts. (line.now ≡ parts.0.now ++ 32 ∷ parts.1.now) × HasNoSpace parts.0.now) }
{
    let space = memchr(b' ', line)?;
    let (front, rest) = line.split_at(space);
    Some((front, &rest[1..]))
}

// The number that digits write.
fn number_of(digits: &[u8]) -> Option<u64>
    ensures { (number : ℕ) → number < 2 ^ 64 → digits.now ≡ decimal number → result ≡ Some number }
{
    let Ok(text) = str::from_utf8(digits) else {
        return None;
    };
    text.parse().ok()
}

// The number at the front of a line of a run, up to a space, and what follows the space.
fn numbered(line: &[u8]) -> Option<Answer<'_>>
    ensures { (told : ℕ × List ℕ) → line.now ≡ told_line told → told.0 < 2 ^ 64 → option_map told_of result ≡ Some told }
{
    let (digits, text) = split_space(line)?;
    Some(Answer {
        number: number_of(digits)?,
        text,
    })
}

/// The lines that a run has written.
pub fn given_lines(alloc: Global, answers: &[u8]) -> Result<Vec<Answer<'_>>, AllocError>
    ensures { IfOk result (λ given. AreTold answers.now given.items) }
{
    let mut lines = Vec::new(alloc);
    let mut rest = answers;
    while let Some((line, after)) = first_line(rest) {
        if let Some(given) = numbered(line) {
            lines.push(given)?;
        }
        rest = after;
    }
    Ok(lines)
}

/// Who is told how the answers of a script differ.
pub trait Comparing {
    // how it goes on by the lines of a script that are answered otherwise than is wanted
    ghost goes_on: { Self → List Line → Self → Type 0 };

    /// Goes on by the lines of a script that are answered otherwise than is wanted.
    fn tell(&mut self, script: &Script<'_>, found: &[Difference<'_>])
        ensures { goes_on self.old (map line_of found.now) self.new };
}

/// Whether the answer to a line is the denial of one that is none of the language.
pub fn is_refused(given: &[Answer<'_>]) -> bool {
    match given.first() {
        Some(answer) => answer.text == REFUSED,
        None => false,
    }
}

// Tells how these answers to a script differ from those that it wants.
fn compare<T: Comparing>(
    alloc: Global,
    script: &Script<'_>,
    given: &[Answer<'_>],
    told: &mut T,
) -> Result<(), AllocError>
    ensures ok { OnOk result (T.goes_on told.old (differing script.now.wanted.items given.now) told.new) }
    ensures err { OnErr result (told.new ≡ told.old) }
{
    let found = differences(alloc, script.wanted.as_slice(), given)?;
    told.tell(script, found.as_slice());
    Ok(())
}

// Runs a script, and tells how its answers differ from those that it wants.
fn compare_script<C: Calls, T: Comparing>(
    alloc: Global,
    script: &Script<'_>,
    told: &mut T,
) -> Result<(), AllocError>
    ensures ok { OnOk result (Compares T.goes_on (version_of script.now.version) script.now.text.items
        script.now.wanted.items told.old told.new) }
    ensures err { OnErr result (told.new ≡ told.old) }
{
    let written = answers::<C>(script.version, alloc, script.text.as_slice(), PIECE)?;
    let given = given_lines(alloc, written.bytes())?;
    compare(alloc, script, given.as_slice(), told)
}

// Runs these scripts one after the other, and tells of each how its answers differ.
fn compare_each<C: Calls, T: Comparing>(
    alloc: Global,
    scripts: &[Script<'_>],
    told: &mut T,
) -> Result<(), AllocError>
    ensures ok { OnOk result (ComparesAll T.goes_on scripts.now told.old told.new) }
    ensures err { OnErr result (ComparesSome T.goes_on told.old told.new) }
{
    for script in scripts {
        compare_script::<C, T>(alloc, script, told)?;
    }
    Ok(())
}

/// Runs the scripts of a file, all in this version of their language, and tells of each how its answers differ.
///
/// After a fault some of the scripts have been told.
pub fn compare_all<C: Calls, T: Comparing>(
    version: Version,
    alloc: Global,
    file: &[u8],
    told: &mut T,
) -> Result<(), SuiteFault>
    ensures ok { OnOk result (ComparesFile T.goes_on (version_of version) file.now told.old told.new) }
    ensures err { OnErr result (ComparesSome T.goes_on told.old told.new) }
{
    let all = scripts(version, alloc, file)?;
    compare_each::<C, T>(alloc, all.as_slice(), told)?;
    Ok(())
}
