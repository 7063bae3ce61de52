//! A script is answered, as text or as JSON.
ghost use Rattle.std.specs.Prelude.{◌≡◌, false, true, IfErr, IfOk};
ghost use Rattle.vt_line.specs.Versions.{version_of};
ghost use Rattle.vt_run.specs.Answered.{AnswersKnown};
ghost use Rattle.vt_run.specs.Status.{comes_before_output, is_of_run};

use crate::noting::note_answers;
use std::io::{Read, Write};
use std::rt::Files;
use vt_files::count_refused;
use vt_run::fault::Fault;
use vt_run::running::{Opened, Pace, answer_named, open};
use vt_script::{Calls, Version};
use vt_written::{Counted, Objects};

/// How answers are written.
#[derive(Clone, Copy, PartialEq, Eq)]
pub enum Form {
    /// As a run writes them.
    Text,
    /// As JSON, an object for each line that is answered.
    Objects,
}

/// The script that is answered, and how.
#[derive(Clone, Copy)]
pub struct ScriptAsked<'a> {
    pub version: Version,
    /// The name of its file.
    pub file: &'a str,
    pub form: Form,
}

impl<'a> ScriptAsked<'a> {
    // The script, which this reader gives.
    fn opened<D>(self, reader: D) -> Opened<'a, D>
        ensures version { result.version ≡ self.entry.version }
        ensures reader { result.reader ≡ reader }
    {
        Opened {
            version: self.version,
            name: if self.file == "-" {
                "standard input"
            } else {
                self.file
            },
            reader,
        }
    }
}

// What a run that ended well is said to have answered, beside the answers.
fn note<R: Files + Eprint>(rt: &R, file: &str, refused: u64) {
    note_answers(rt, file);
    count_refused(rt, file, refused);
}

// Answers a script as text.
fn answer_text<C: Calls, R: Files + Eprint + AllocGlobal, D: Read + Drop, W: Write + Drop>(
    rt: &R,
    asked: ScriptAsked<'_>,
    reader: D,
    pace: Pace,
    output: W,
) -> Result<W, Fault>
    ensures answers { IfOk result (λ writer. AnswersKnown (version_of asked.entry.version) (D.remaining reader)
        (W.contents output) (W.contents writer)) }
    ensures fault { IfErr result (λ fault. comes_before_output fault ≡ false) }
    ensures of_run { IfErr result (λ fault. is_of_run fault ≡ true) }
{
    let script = asked.opened(reader);
    let counting = Counted::new(output);
    let counted = answer_named::<C, _, _>(rt.alloc(), script, pace, counting)?;
    note(rt, asked.file, counted.refused);
    Ok(counted.into_output())
}

// Hands on the last object of a run.
fn end_objects<W: Write + Drop>(objects: Objects<W>) -> Result<(), Fault>
    ensures fault { IfErr result (λ fault. comes_before_output fault ≡ false) }
    ensures of_run { IfErr result (λ fault. is_of_run fault ≡ true) }
{
    match objects.finish() {
        Ok(()) => Ok(()),
        Err(cause) => Err(Fault::Write { cause }),
    }
}

// Answers a script as JSON.
fn answer_objects<C: Calls, R: Files + Eprint + AllocGlobal, D: Read + Drop, W: Write + Drop>(
    rt: &R,
    asked: ScriptAsked<'_>,
    reader: D,
    pace: Pace,
    output: W,
) -> Result<(), Fault>
    ensures fault { IfErr result (λ fault. comes_before_output fault ≡ false) }
    ensures of_run { IfErr result (λ fault. is_of_run fault ≡ true) }
{
    let mut objects = Objects::new(rt.alloc(), output);
    let script = asked.opened(reader);
    match answer_named::<C, _, _>(rt.alloc(), script, pace, &mut objects).map(|_| ()) {
        Ok(()) => {
            note(rt, asked.file, objects.refused);
            end_objects(objects)
        }
        Err(Fault::Read { name, cause }) => {
            // What was answered is handed on. That the input fails is told, and not what may come of the rest.
            let _ = end_objects(objects);
            Err(Fault::Read { name, cause })
        }
        Err(fault) => {
            let _output = objects.into_output();
            Err(fault)
        }
    }
}

// Answers the script that a reader gives.
fn answer_reader<C: Calls, R: Files + Eprint + AllocGlobal, D: Read + Drop, W: Write + Drop>(
    rt: &R,
    asked: ScriptAsked<'_>,
    reader: D,
    pace: Pace,
    output: W,
) -> Result<(), Fault>
    ensures fault { IfErr result (λ fault. comes_before_output fault ≡ false) }
    ensures of_run { IfErr result (λ fault. is_of_run fault ≡ true) }
{
    match asked.form {
        Form::Text => answer_text::<C, _, _, _>(rt, asked, reader, pace, output).map(|_| ()),
        Form::Objects => answer_objects::<C, _, _, _>(rt, asked, reader, pace, output),
    }
}

/// Answers the script in a file, or on the standard input where its name is `-`. It is the last that a program does: the
/// world is not freed.
///
/// How many of its lines are S1, and that it holds the answers that it wants, is said on the error output. That the file is
/// what is read, and the output what is written, tests show.
pub fn answer<C: Calls, R: Files + Input + Eprint + AllocGlobal, W: Write>(
    rt: &R,
    asked: ScriptAsked<'_>,
    pace: Pace,
    output: &mut W,
) -> Result<(), Fault>
    ensures unwritten { IfErr result (λ fault. comes_before_output fault ≡ true → output.new ≡ output.old) }
    ensures of_run { IfErr result (λ fault. is_of_run fault ≡ true) }
{
    if asked.file == "-" {
        return answer_reader::<C, _, _, _>(rt, asked, rt.reader(), pace, output);
    }
    let file = open(rt, asked.file)?;
    answer_reader::<C, _, _, _>(rt, asked, file, pace, output)
}
