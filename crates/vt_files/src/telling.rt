//! Messages on the error output, of what keeps a command from its work.
ghost use Rattle.std.specs.Prelude.{◌≡◌, false};
ghost use Rattle.vt_run.specs.Status.{comes_before_output};

use crate::reading::told;
use std::alloc::AllocError;
use vt_run::fault::{Fault, out_of_memory};

/// Says on the error output what keeps a command from its work on a file.
pub fn refuse<R: Eprint>(rt: &R, name: &str, why: &str) -> Fault
    ensures { comes_before_output result ≡ false }
{
    let name = told(name);
    let _ = eprintln!(rt; "vtree: {name}: {why}");
    Fault::Found
}

/// Says on the error output what keeps a command from its work on a file, if there was memory for that.
pub fn refuse_text<R: Eprint>(rt: &R, name: &str, why: Result<String, AllocError>) -> Fault
    ensures { comes_before_output result ≡ false }
{
    match why {
        Ok(why) => refuse(rt, name, why.as_str()),
        Err(error) => out_of_memory(error),
    }
}

/// Says on the error output how many lines of a script were refused by S1, if some were.
pub fn count_refused<R: Eprint>(rt: &R, name: &str, refused: u64) {
    if refused > 0 {
        let name = told(name);
        let _ = eprintln!(rt;
            "vtree: {name}: lines answered by S1, which change nothing: {refused}; `vtree check` tells why"
        );
    }
}
