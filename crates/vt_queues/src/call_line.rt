//! A line that asks for a call.
ghost use Rattle.std.specs.Prelude.{◌≡◌, true, IfOk};
ghost use Rattle.vt_line.specs.Versions.{version_of};
ghost use Rattle.vt_queues.specs.CallLines.{is_call_line};

use std::alloc::{AllocError, Global};
use vt_line::line::{Line, Unescaped};
use vt_line::version::Version;
use vt_request::Call;

/// A line that asks for a call, in a version of the language. A call borrows its texts from the line, so the line is
/// kept, and read again for each turn.
#[derive(Debug, Drop)]
pub struct CallLine {
    version: Version,
    text: Vec<u8>,
    ghost asks: { is_call_line (version_of version) text.items ≡ true },
}

impl CallLine {
    ghost use Rattle.std.specs.Prelude.{Some};
    ghost use Rattle.vt_request.specs.Requests.{call_of};
    ghost use Rattle.vt_queues.specs.QueuesValue.{call_in};

    /// A line that asks for a call.
    pub fn new(version: Version, alloc: Global, line: &[u8]) -> Result<CallLine, AllocError>
        requires { is_call_line (version_of version) line.now ≡ true }
        ensures version { IfOk result (λ made. made.version ≡ version) }
        ensures text { IfOk result (λ made. made.text.items ≡ line.now) }
    {
        let text = Vec::from_slice(alloc, line)?;
        Ok(CallLine { version, text })
    }

    /// The call that the line asks for. Its texts are lent by the line, or by `texts` where they have escapes.
    pub fn call<'a>(
        &'a self,
        alloc: Global,
        texts: &'a mut Option<Unescaped>,
    ) -> Result<Call<'a>, AllocError>
        ensures { IfOk result (λ call. call_in self.now ≡ Some (call_of call)) }
    {
        match Line::parse_as(self.version, alloc, &self.text, texts) {
            Ok(Line::Call(_, call)) => Ok(call),
            Ok(Line::Silent | Line::Ask(_)) => unreachable!(),
            // The line is of the grammar, so that nothing but memory can lack.
            Err(_) => Err(AllocError),
        }
    }
}
