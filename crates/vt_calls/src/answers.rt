//! The answer of a change that was made, or for which an allocation failed.
ghost use Rattle.std.specs.Prelude.{◌≡◌};
ghost use Rattle.vt_calls.specs.Answered.{answered};

use std::alloc::AllocError;
use vt_request::Answer;
use vt_spec::errors::Deny;

// A change that was made is answered by `ok`, and one for which an allocation failed by S5 (ENOMEM).
#[inline(always)]
pub(crate) fn done(changed: Result<(), AllocError>) -> Result<Answer, Deny>
    ensures { result ≡ answered changed }
{
    changed?;
    Ok(Answer::Done)
}
