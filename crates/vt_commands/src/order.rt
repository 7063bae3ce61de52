//! What the words ask for is done.
ghost use Rattle.std.specs.Prelude.{◌≡◌, IfErr, true};
ghost use Rattle.vt_run.specs.Status.{comes_before_output};

use crate::command::{Order, matches_of, order_of};
use crate::explaining::Explainer;
use crate::{cookbook, rules, turning};
use std::io::Write;
use std::rt::Runtime;
use vt_answering::answer;
use vt_calls::Kernel;
use vt_converting::convert;
use vt_playing::play;
use vt_run::fault::Fault;
use vt_run::running::Pace;
use vt_showing::show;
use vt_turns_dated::TurnKernel;
use vt_working::work_on_all;

// Does what a command asks for.
fn obey_order<E: Explainer, R: Runtime + AllocGlobal, W: Write>(
    rt: &R,
    order: Order<'_, '_>,
    pace: Pace,
    output: &mut W,
) -> Result<(), Fault>
    ensures { IfErr result (λ fault. comes_before_output fault ≡ true → output.new ≡ output.old) }
{
    match order {
        Order::Run(script) => answer::<Kernel, _, _>(rt, script, pace, output),
        Order::Work(files, work) => work_on_all(rt, files, work, output),
        Order::Show(file, world) => show(rt, file, world, output),
        Order::Explain(file, line) => E::explain(rt, file, line, output),
        Order::Turns(file, asked) => turning::try_orders(rt, file, asked, output),
        Order::Play(file, asked) => play::<TurnKernel, _, _>(rt, file, asked, output),
        Order::From(conversion) => convert::<Kernel, _, _>(rt, conversion, output),
        Order::New(name) => cookbook::write(rt, name, output),
        Order::Rules { word, page } => rules::tell(rt.alloc(), word, page, output),
    }
}

/// Does what the words say: `run FILE` answers the script in that file, or on the standard input where FILE is `-`;
/// `check FILE..` and `test FILE..` tell what they find in each file, `show FILE` shows a world, `explain FILE LINE`
/// explains a line, `turns FILE SCHEDULE` answers the script in the order of a schedule, `turns --all FILE` tries every
/// order of lines, `from KIND FILE` makes a script, `rules` tells of rules, and `new NAME` writes an example.
///
/// The words are read first, and then files are opened. What was answered is handed on to the output, also
/// before a fault. What a file holds no clause can say: that FILE is what is read, tests show.
pub fn obey<E: Explainer, R: Runtime + AllocGlobal, W: Write>(
    rt: &R,
    words: &[String],
    pace: Pace,
    output: &mut W,
) -> Result<(), Fault>
    ensures { IfErr result (λ fault. comes_before_output fault ≡ true → output.new ≡ output.old) }
{
    let matches = matches_of(rt.alloc(), words)?;
    let outcome = match order_of(rt.alloc(), &matches) {
        Ok(order) => obey_order::<E, _, _>(rt, order, pace, output),
        Err(fault) => Err(fault),
    };
    drop(matches);
    outcome
}
