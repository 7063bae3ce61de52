//! `vtree run FILE` answers a script of calls on a file tree, each with the rule that decides it. `vtree check` tells what
//! is wrong with its lines, and `vtree test` compares its answers with those that it wants.
#![tactic(auto)]

mod explaining;

use crate::explaining::LineExplainer;
use std::io::{self, IsTerminal};
use std::process::ExitCode;
use vt_commands::{Fault, Pace, obey, status, words};

fn main(rt: HostRuntime) -> ExitCode {
    let pace = if rt.stdout().is_terminal() {
        Pace::Lines
    } else {
        Pace::Blocks
    };
    let outcome = match words(&rt) {
        Ok(words) => {
            obey::<LineExplainer, _, _>(&rt, words.as_slice(), pace, &mut io::writer(&rt))
        },
        Err(fault) => Err(fault),
    };
    // A fault of the error output changes nothing more. Of a reader of the answers that went away nothing is said.
    let _ = match &outcome {
        Ok(()) | Err(Fault::Found) => Ok(()),
        Err(Fault::Write { cause }) if cause.kind() == io::ErrorKind::BrokenPipe => Ok(()),
        Err(Fault::Help(text)) => print!(rt; "{text}"),
        Err(fault) => eprintln!(rt; "vtree: {fault}"),
    };
    ExitCode::from(status(&outcome))
}
