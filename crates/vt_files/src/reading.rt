//! Files are read.
use std::fs;
use std::io::{self, Read};
use std::rt::Files;

const INPUT: &str = "standard input";

/// The name of a file as it is shown.
pub fn told(name: &str) -> &str {
    if name == "-" { INPUT } else { name }
}

// The content of a file, or of the standard input where its name is `-`.
fn content<R: Files + Input + AllocGlobal>(rt: &R, name: &str) -> io::Result<Vec<u8>> {
    if name != "-" {
        return fs::read(rt, name);
    }
    let mut bytes = Vec::new(rt.alloc());
    rt.reader().read_to_end(&mut bytes)?;
    Ok(bytes)
}

/// The content of a file, or `None` if it cannot be read; the error output says why.
pub fn readable<R: Files + Input + Eprint + AllocGlobal>(rt: &R, name: &str) -> Option<Vec<u8>> {
    match content(rt, name) {
        Ok(bytes) => Some(bytes),
        Err(cause) => {
            let name = told(name);
            let _ = eprintln!(rt;
                "vtree: cannot read {name}: {cause}; check its name, and that you may read it"
            );
            None
        }
    }
}
