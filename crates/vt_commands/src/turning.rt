//! The command that tries every order of a script's lines.
ghost use Rattle.std.specs.Prelude.{◌≡◌, false, true, IfErr};
ghost use Rattle.vt_run.specs.Status.{comes_before_output};

use std::alloc::{AllocError, Global};
use std::io::Write;
use std::rt::Files;
use vt_calls::Kernel;
use vt_check::check::Format;
use vt_check::draft::Draft;
use vt_check::object::HEAD;
use vt_files::{count_refused, hand_on, readable, spoken, told};
use vt_orders::queues::Queues;
use vt_orders::report::{Asked, Options, Report, excess, orders_told};
use vt_orders::schedule::Turns;
use vt_request::{Call, TaskName};
use vt_run::fault::{Fault, out_of_memory};
use vt_script::{RunFault, Version};
use vt_showing::scripts_in;
use vt_test::suite::Script;
use vt_test::text::push_name;
use vt_turns_taken::turns_of;

/// Which orders are tried, and of scripts in which version of the language, unless their first line says so.
#[derive(Clone, Copy)]
pub struct OrdersAsked {
    pub version: Option<Version>,
    pub options: Options,
}

// How many turns calls take: by the words that they walk.
struct ByWords;

impl Turns<Kernel> for ByWords {
    fn turns(
        &self,
        alloc: Global,
        world: &Kernel,
        name: &TaskName,
        call: &Call<'_>,
    ) -> Result<u64, AllocError> {
        turns_of(alloc, world.world(), name, call)
    }
}

// The name by which a script is told: its own, or that of its file.
fn name_of(alloc: Global, file: &str, script: &Script<'_>) -> Result<String, AllocError> {
    let mut name = Draft::new(alloc);
    push_name(&mut name, file, script.name);
    name.end()
}

// Says on the error output which line stands in no queue, and how many are refused.
fn tell_refused<R: Eprint>(rt: &R, file: &str, queues: &Queues<'_>) {
    if let Some(line) = queues.nobodys {
        let _ = eprintln!(rt;
            "vtree: {file}: line {line} begins with neither a task nor `!`, and is in no order"
        );
    }
    count_refused(rt, file, queues.refused);
}

// Tries every order of the queues of a script, unless there are too many.
fn try_queues(asked: Asked<'_, '_>) -> Result<Report, Fault> {
    match excess(asked) {
        Ok(None) => {}
        Ok(Some(text)) => return Err(Fault::Words(text)),
        Err(error) => return Err(out_of_memory(error)),
    }
    match orders_told::<Kernel, _>(asked, &ByWords) {
        Ok(report) => Ok(report),
        Err(error) => Err(out_of_memory(error)),
    }
}

// Tries every order of a script of a file.
fn try_script<R: Eprint + AllocGlobal>(
    rt: &R,
    file: &str,
    script: &Script<'_>,
    options: Options,
) -> Result<Report, Fault> {
    let alloc = rt.alloc();
    let lines = Queues::new(script.version, alloc, script.text.as_slice(), script.before);
    match (lines, name_of(alloc, file, script)) {
        (Ok(queues), Ok(name)) => {
            tell_refused(rt, file, &queues);
            try_queues(Asked {
                alloc,
                name: name.as_str(),
                queues: &queues,
                options,
            })
        }
        _ => Err(Fault::Run(RunFault::Memory)),
    }
}

// Tries every order of each script of a file.
fn try_scripts<R: Eprint + AllocGlobal>(
    rt: &R,
    file: &str,
    all: &[Script<'_>],
    options: Options,
) -> Result<Report, Fault> {
    let mut text = Draft::new(rt.alloc());
    if matches!(options.format, Format::Json) {
        text.push(HEAD);
    }
    let mut differs = false;
    for script in all {
        let report = try_script(rt, file, script, options)?;
        differs |= report.differs;
        if text.len() > 0 && matches!(options.format, Format::Text) {
            text.push_char('\n');
        }
        text.push(report.text.as_str());
    }
    match text.end() {
        Ok(text) => Ok(Report { text, differs }),
        Err(error) => Err(out_of_memory(error)),
    }
}

// Tries every order of each script of the content of a file.
fn try_content<R: Eprint + AllocGlobal>(
    rt: &R,
    name: &str,
    content: &[u8],
    asked: OrdersAsked,
) -> Result<Report, Fault> {
    let Some(version) = spoken(rt, name, asked.version, content) else {
        return Err(Fault::Found);
    };
    let all = scripts_in(rt, version, name, content)?;
    let outcome = try_scripts(rt, told(name), all.as_slice(), asked.options);
    drop(all);
    outcome
}

// Hands on what is told, and tells whether lines are answered in more than one way.
fn hand_on_report<W: Write>(report: &Report, output: &mut W) -> Result<(), Fault>
    ensures { IfErr result (λ fault. comes_before_output fault ≡ false) }
{
    hand_on(output, report.text.as_bytes())?;
    if report.differs {
        Err(Fault::Found)
    } else {
        Ok(())
    }
}

/// Tries every order of each script of a file that keeps the order of each task's lines, and tells in which ways the lines
/// are answered.
///
/// `Words`: a script has too many orders, and nothing is told. `Found`: the lines of one are answered in more than one way,
/// or the file cannot be read.
pub fn try_orders<R: Files + Input + Eprint + AllocGlobal, W: Write>(
    rt: &R,
    name: &str,
    asked: OrdersAsked,
    output: &mut W,
) -> Result<(), Fault>
    ensures { IfErr result (λ fault. comes_before_output fault ≡ true → output.new ≡ output.old) }
{
    let Some(content) = readable(rt, name) else {
        return Err(Fault::Found);
    };
    let outcome = try_content(rt, name, content.as_slice(), asked);
    drop(content);
    match outcome {
        Ok(report) => hand_on_report(&report, output),
        Err(fault) => Err(fault),
    }
}
