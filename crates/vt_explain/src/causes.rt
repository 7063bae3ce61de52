//! A cause as it is told, with the line since which it holds.
use crate::head::Asked;
use crate::lines::line_at;
use std::alloc::{AllocError, Global};
use vt_causes::Cause;
use vt_check::diagnose::diagnosis;
use vt_check::draft::Draft;
use vt_check::object::Object;
use vt_holders::Earlier;
use vt_ns::World;
use vt_script::Version;
use vt_sections::causes::{Since, Telling, Told};
use vt_show::picture::Picture;

// The line since which a cause holds, if it did not always.
fn since_line<'a>(
    asked: Asked<'a>,
    earlier: &Earlier<'_>,
) -> Result<Option<Since<'a>>, AllocError> {
    let Some(before) = earlier.since() else {
        return Ok(None);
    };
    let number = earlier.numbered(before, asked.line.number);
    match line_at(asked.alloc, asked.line.before, before.saturating_add(1))? {
        Some((_before, text)) => {
            let text = text.trim_ascii_end();
            Ok(Some(Since { number, text }))
        }
        None => Ok(None),
    }
}

/// A cause as it is told, with the line since which it holds.
pub fn told_since(
    asked: Asked<'_>,
    world: &World,
    picture: &Picture,
    cause: &Cause<'_>,
    earlier: &Earlier<'_>,
) -> Result<Told, AllocError> {
    let since = since_line(asked, earlier)?;
    let telling = Telling {
        world,
        picture,
        cause,
        since,
    };
    Ok(telling.told())
}

/// What is wrong with a line that is not of the grammar.
pub fn told_of_line(version: Version, alloc: Global, line: &[u8]) -> Told {
    let mut words = Draft::new(alloc);
    let found = diagnosis(version, alloc, line);
    words.push_draft(&found.message);
    Told {
        words,
        parts: Object::new(alloc),
    }
}
