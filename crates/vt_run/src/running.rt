//! A script is opened, read and answered.
ghost use Rattle.std.specs.Prelude.{◌≡◌, ◌<◌, ◌⊎◌, Some, None, IfErr, IfOk, IsErr, IsErrOf, OnOk, true, false};
ghost use Rattle.std.specs.Io.{ReadsAtMost};
ghost use Rattle.std.specs.Io.KnownBytes.{ReadConsumes};
ghost use Rattle.vt_line.specs.Versions.{version_of};
ghost use Rattle.vt_run.specs.Answered.{AnswersKnown, AnswersKnownLines, BeginsKnownAnswers, IsFresh};
ghost use Rattle.vt_run.specs.Status.{comes_before_output, is_of_run};

use crate::fault::{Fault, out_of_memory};
use std::alloc::Global;
use std::fs::File;
use std::io::{self, BufWriter, Read, Write};
use std::rt::Files;
use vt_script::{Calls, ReadSource, RunFault, Version, WriteSink, run_as};

/// When answers go out.
#[derive(Clone, Copy, PartialEq, Eq)]
pub enum Pace {
    /// Each by the end of its line, as at a terminal.
    Lines,
    /// Several together.
    Blocks,
}

impl Pace {
    // How many bytes of answers are held back.
    fn capacity(self) -> usize {
        match self {
            Pace::Lines => 0,
            Pace::Blocks => 8192,
        }
    }
}

// A reader, with the error of its last call.
#[derive(Drop)]
struct Watched<D> {
    device: D,
    error: Option<io::Error>,
}

impl<D> Watched<D> {
    fn new(device: D) -> Self
        ensures { result.device ≡ device }
    {
        Watched {
            device,
            error: None,
        }
    }
}

impl<D: Read> Read for Watched<D> {
    ghost remaining = { λ w. D.remaining w.device };

    fn read(&mut self, buf: &mut [u8]) -> io::Result<usize>
        ensures bound { ReadsAtMost result buf.new }
        ensures bytes { ReadConsumes (D.remaining self.old.device) (D.remaining self.new.device) result buf.new }
        ensures error { IfErr result (λ e. self.new.error ≡ Some e) }
        ensures no_error { OnOk result (self.new.error ≡ None) }
    {
        let count = self.device.read(buf);
        self.error = count.err();
        count
    }
}

/// Answers the script that a source gives, in a version of its language, and flushes the sink, also where a device failed.
/// The world is given back, to be freed or forgotten.
///
/// `Read` and `Write`: that device failed. `Memory`: an allocation failed before anything was read or written.
pub fn answer<C: Calls, R: Read + Drop, W: Write + Drop>(
    version: Version,
    alloc: Global,
    source: &mut ReadSource<R>,
    sink: &mut WriteSink<W>,
) -> Result<C, RunFault>
    requires source { IsFresh source.old }
    requires sink { sink.old.failures ≡ 0 }
    ensures ok { OnOk result (AnswersKnown (version_of version) (R.remaining source.old.reader)
        (W.contents sink.old.writer) (W.contents sink.new.writer)) }

    // After a failed read the complete lines before it are answered; after a failed write what the writer holds is a
    // beginning of the answers.
    ensures after_read { IsErrOf result RunFault.Read → AnswersKnownLines (version_of version) (R.remaining source.old.reader)
        (R.remaining source.new.reader) (W.contents sink.old.writer) (W.contents sink.new.writer) }
    ensures after_write { IsErrOf result RunFault.Write → BeginsKnownAnswers (version_of version)
        (R.remaining source.old.reader) (W.contents sink.old.writer) (W.contents sink.new.writer) }

    // Each failure of a device is a fault, and no fault of a device comes without one.
    ensures read { IsErrOf result RunFault.Read → source.new.failures ≡ 1 }
    ensures no_read { IsErrOf result RunFault.Read ⊎ (source.new.failures ≡ 0) }
    ensures write { IsErrOf result RunFault.Write → 0 < sink.new.failures }
    ensures no_write { IsErr result ⊎ (sink.new.failures ≡ 0) }
    ensures memory { IsErrOf result RunFault.Memory → (source.new ≡ source.old) × (sink.new ≡ sink.old) }
{
    let world = match run_as::<C, _, _>(version, alloc, source, sink) {
        Ok(world) => world,
        Err(RunFault::Memory) => return Err(RunFault::Memory),
        Err(fault) => {
            // The device that failed is told, and not what may come of this flush.
            let _ = sink.flush();
            return Err(fault);
        }
    };
    match sink.flush() {
        Ok(()) => Ok(world),
        Err(_) => {
            world.end();
            Err(RunFault::Write)
        }
    }
}

/// A script that is open.
pub struct Opened<'a, R> {
    pub version: Version,
    /// Its name, as a fault tells it.
    pub name: &'a str,
    pub reader: R,
}

/// Answers an open script, with the fault that the program tells. The writer that is returned was handed all that was kept
/// back; before a fault what was answered is handed on too, and no clause says so. It is the last that a program does: the
/// world is not freed.
pub fn answer_named<C: Calls, R: Read + Drop, W: Write + Drop>(
    alloc: Global,
    script: Opened<'_, R>,
    pace: Pace,
    output: W,
) -> Result<W, Fault>
    ensures answers { IfOk result (λ writer. AnswersKnown (version_of script.entry.version)
        (R.remaining script.entry.reader) (W.contents output) (W.contents writer)) }
    ensures fault { IfErr result (λ fault. comes_before_output fault ≡ false) }
    ensures of_run { IfErr result (λ fault. is_of_run fault ≡ true) }
{
    let Opened {
        version,
        name,
        reader,
    } = script;
    let buffered = BufWriter::with_capacity(alloc, pace.capacity(), output);
    let mut sink = WriteSink::new(buffered.map_err(out_of_memory)?);
    let mut reader = Watched::new(reader);
    let mut source = ReadSource::new(&mut reader);
    let outcome = answer::<C, _, _>(version, alloc, &mut source, &mut sink);
    let handed_on = sink.into_inner().into_inner();
    match (outcome, handed_on) {
        (Ok(world), Ok(writer)) => {
            // The program ends next, and the system frees its memory at once.
            world.forget();
            Ok(writer)
        }
        (Ok(world), Err(error)) => {
            world.end();
            Err(Fault::Write {
                cause: *error.error(),
            })
        }
        (Err(RunFault::Write), Err(error)) => Err(Fault::Write {
            cause: *error.error(),
        }),
        (Err(RunFault::Read), _) => Err(read_fault(alloc, name, reader.error)),
        (Err(fault), _) => Err(Fault::Run(fault)),
    }
}

// A read failed, and this the system said of it.
fn read_fault(alloc: Global, name: &str, cause: Option<io::Error>) -> Fault
    ensures after_output { comes_before_output result ≡ false }
    ensures of_run { is_of_run result ≡ true }
{
    let Some(cause) = cause else {
        return Fault::Run(RunFault::Read);
    };
    match String::from_str(alloc, name) {
        Ok(name) => Fault::Read { name, cause },
        Err(error) => out_of_memory(error),
    }
}

/// Opens the file of this name.
pub fn open<R: Files + AllocGlobal>(rt: &R, name: &str) -> Result<R::File, Fault>
    ensures { IfErr result (λ fault. is_of_run fault ≡ true) }
{
    match File::open(rt, name) {
        Ok(file) => Ok(file),
        Err(cause) => Err(Fault::Open {
            name: String::from_str(rt.alloc(), name).map_err(out_of_memory)?,
            cause,
        }),
    }
}
