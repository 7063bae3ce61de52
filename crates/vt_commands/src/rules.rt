//! The command that tells of rules.
ghost use Rattle.std.specs.Prelude.{◌≡◌, true, IfErr};
ghost use Rattle.vt_run.specs.Status.{comes_before_output};

use std::alloc::{AllocError, Global};
use std::io::Write;
use vt_files::hand_on_text;
use vt_rule_pages::told::{order, told};
use vt_rule_pages::{markdown, meant};
use vt_run::fault::{Fault, out_of_memory};

// What is told: of a word, of all rules, or all rules as a page.
fn text_of(alloc: Global, word: Option<&str>, page: bool) -> Result<String, AllocError> {
    match word {
        _ if page => markdown::page(alloc),
        Some(word) => told(alloc, word),
        None => order(alloc),
    }
}

// That a word is none of which something is told, and which is like it.
fn unknown_told(alloc: Global, word: &str) -> Result<String, AllocError> {
    match meant(alloc, word)? {
        Some(name) => {
            format!(in alloc; "no rule, error or call `{word}`; `vtree rules {name}` may be meant")
        }
        None => {
            format!(in alloc; "no rule, error or call `{word}`; `vtree rules` has the rules")
        }
    }
}

// The fault of a word of which nothing is told.
fn unknown(alloc: Global, word: &str) -> Fault {
    match unknown_told(alloc, word) {
        Ok(text) => Fault::Words(text),
        Err(error) => out_of_memory(error),
    }
}

/// Tells of the rules that a word names: of a rule, of the rules of an error or a call, or of all.
pub fn tell<W: Write>(
    alloc: Global,
    word: Option<&str>,
    page: bool,
    output: &mut W,
) -> Result<(), Fault>
    ensures { IfErr result (λ fault. comes_before_output fault ≡ true → output.new ≡ output.old) }
{
    match text_of(alloc, word, page) {
        Ok(text) if text.is_empty() => Err(unknown(alloc, word.unwrap_or_default())),
        text => hand_on_text(text, output),
    }
}
