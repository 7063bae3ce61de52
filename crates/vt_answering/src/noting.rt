//! That a file holds the answers that it wants is told once, behind a run of it.
use std::fs::{self, File};
use std::io::{self, Read};
use std::rt::Files;
use vt_wanted::entry::holds_answers;

// How much of a file is looked at.
const FRONT: usize = 8192;

// Reads the beginning of a file, if it is one that can be read again, and returns its length.
fn read_front<R: Files>(rt: &R, name: &str, front: &mut [u8]) -> io::Result<usize> {
    if name == "-" || !fs::metadata(rt, name)?.is_file() {
        return Ok(0);
    }
    File::open(rt, name)?.read(front)
}

/// Says on the error output that a file holds the answers that it wants, if its first lines do.
pub fn note_answers<R: Files + Eprint>(rt: &R, name: &str) {
    let mut front = [0; FRONT];
    if let Ok(length) = read_front(rt, name, &mut front)
        && holds_answers(front.get(..length).unwrap_or_default())
    {
        let _ = eprintln!(rt;
            "vtree: {name} holds the answers that it wants, and a run does not compare them: use `vtree test`"
        );
    }
}
