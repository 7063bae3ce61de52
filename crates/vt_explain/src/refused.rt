//! A refused call: why, which later rules refuse it too, and who holds, locks or mounted what is in the way.
use crate::causes::told_since;
use crate::head::{Asked, push_head};
use crate::later::{Refused as Judged, later_rules};
use std::alloc::AllocError;
use vt_causes::{Cause, Use, Walked, Walks, no_task, uses_in};
use vt_check::draft::Draft;
use vt_holders::holders::{self, Look, add_holders};
use vt_holders::locks::{self, add_locks};
use vt_holders::mounters::{self, add_mounter};
use vt_holders::{Earlier, earlier_lines};
use vt_line::line::Line;
use vt_lines::reading::{free, reading};
use vt_location::NamespaceId;
use vt_ns::World;
use vt_refusals::{Refusal, cause_of};
use vt_request::{Answer, Call, CallKind, TaskName};
use vt_sections::report::Section;
use vt_show::picture::Picture;
use vt_spec::errors::{Deny, Rule};

/// A call that is refused by a rule.
#[derive(Clone, Copy)]
pub struct Refused<'a> {
    pub asked: Asked<'a>,
    pub world: &'a World,
    /// Who calls, and what.
    pub name: &'a TaskName,
    pub kind: CallKind,
    /// Its answer, and the rule that refuses it.
    pub outcome: &'a Result<Answer, Deny>,
    pub rule: Rule,
    /// Where the walks along the paths of the call came to, and the last word of the first that leads nowhere.
    pub walks: Walks,
    pub halt: &'a [u8],
    /// Who calls and the paths of the call, as they are told.
    pub before: &'a Draft,
    pub picture: &'a Picture,
}

// The later rules that the call would fail too.
fn later_of(refused: Refused<'_>) -> Result<Vec<Rule>, AllocError> {
    let asked = refused.asked;
    match refused.world.task(refused.name) {
        Some(who) => later_rules(
            &Judged {
                version: asked.version,
                alloc: asked.alloc,
                world: refused.world,
                who,
                line: asked.line.text,
            },
            refused.rule,
        ),
        None => Ok(Vec::new(asked.alloc)),
    }
}

// The namespace whose mounts alone keep a name from being removed: that of the caller of `rmdir`.
fn blocking(refused: Refused<'_>) -> Option<NamespaceId> {
    if refused.kind != CallKind::Rmdir {
        return None;
    }
    Some(refused.world.task(refused.name)?.namespace)
}

// Appends what is told of a path of a refused call: who holds, locks or mounted what is in the way where it leads.
fn push_of_path(
    asked: Asked<'_>,
    look: &Look<'_, '_>,
    rule: Rule,
    walked: Option<Walked>,
    text: &mut Draft,
) {
    let Some(walked) = walked else {
        return;
    };
    let heads = match rule {
        Rule::L1 => &locks::HEADS,
        Rule::W5 | Rule::B1 => &mounters::HEADS,
        _ => &holders::HEADS,
    };
    let mut section = Section::new(asked.alloc, asked.format, heads);
    match rule {
        // Where the path leads nowhere, the directory in which a name is missing.
        Rule::L1 => add_locks(look, &mut section, walked.end.unwrap_or(walked.directory)),
        Rule::W5 if walked.stopped == Some(Rule::W5) => {
            add_mounter(look, &mut section, Some(walked.directory));
        }
        Rule::W5 => {}
        Rule::B1 => add_mounter(look, &mut section, walked.end),
        _ => add_holders(look, &mut section, walked.end),
    }
    section.write(b"", text);
}

// Appends what is told of the paths of a refused call, by what tasks have and what the lines before it opened.
fn push_of_paths(refused: Refused<'_>, uses: &[Use<'_>], earlier: &Earlier<'_>, text: &mut Draft) {
    let look = Look {
        world: refused.world,
        picture: refused.picture,
        uses,
        earlier,
        line: refused.asked.line.number,
        call: refused.kind,
        namespace: blocking(refused),
    };
    let walks = refused.walks;
    push_of_path(refused.asked, &look, refused.rule, walks.first, text);
    push_of_path(refused.asked, &look, refused.rule, walks.second, text);
    push_of_path(refused.asked, &look, refused.rule, walks.layer, text);
}

// The rule of which is told who holds, locks or mounted what is in the way, if there is one: that of the answer, or B1
// behind it.
fn told_rule(rule: Rule, later: &[Rule]) -> Option<Rule> {
    match rule {
        Rule::M8 | Rule::P1 | Rule::L1 | Rule::W5 | Rule::B1 => Some(rule),
        _ if later.contains(&Rule::B1) => Some(Rule::B1),
        _ => None,
    }
}

// Appends who holds, locks or mounted what is in the way, of some rules.
fn push_tables(refused: Refused<'_>, later: &[Rule], earlier: &Earlier<'_>, text: &mut Draft) {
    if refused.picture.failed || earlier.failed {
        text.fail();
    }
    let Some(rule) = told_rule(refused.rule, later) else {
        return;
    };
    let refused = Refused { rule, ..refused };
    match uses_in(refused.world) {
        Ok(uses) => push_of_paths(refused, &uses, earlier, text),
        Err(_) => text.fail(),
    }
}

// Why the call is refused.
fn why<'a>(refused: Refused<'a>, call: &'a Call<'a>) -> Option<Cause<'a>> {
    let Some(who) = refused.world.task(refused.name) else {
        return Some(no_task(refused.name));
    };
    cause_of(&Refusal {
        world: refused.world,
        who,
        call,
        rule: refused.rule,
        walks: refused.walks,
        word: refused.halt,
    })
}

// Appends the line, its answer, and why a call is refused.
fn push_why(
    refused: Refused<'_>,
    cause: &Cause<'_>,
    later: &[Rule],
    earlier: &Earlier<'_>,
    text: &mut Draft,
) {
    let asked = refused.asked;
    match told_since(asked, refused.world, refused.picture, cause, earlier) {
        Ok(told) => push_head(asked, refused.outcome, later, Some(told), text),
        Err(_) => text.fail(),
    }
}

// Appends what is told of a refused call.
fn push_of_call(refused: Refused<'_>, call: &Call<'_>, later: &[Rule], text: &mut Draft) {
    let asked = refused.asked;
    let cause = why(refused, call);
    let earlier = earlier_lines(asked.version, asked.alloc, asked.line.before, cause);
    match &cause {
        Some(cause) => push_why(refused, cause, later, &earlier, text),
        None => push_head(asked, refused.outcome, later, None, text),
    }
    text.push_draft(refused.before);
    push_tables(refused, later, &earlier, text);
    drop(earlier);
}

// The same of a line as a run reads it, which is a call.
fn push_of_line(refused: Refused<'_>, read: &Option<Line<'_>>, later: &[Rule], text: &mut Draft) {
    match read {
        Some(Line::Call(_, call)) => push_of_call(refused, call, later, text),
        _ => text.fail(),
    }
}

/// Appends what is told of a refused call: why, who calls, where its paths lead, and of some rules who holds, locks or
/// mounted what is in the way.
pub fn push_refused(refused: Refused<'_>, text: &mut Draft) {
    let asked = refused.asked;
    let Ok(later) = later_of(refused) else {
        return text.fail();
    };
    let mut texts = None;
    match reading(asked.version, asked.alloc, asked.line.text, &mut texts) {
        Ok(read) => {
            push_of_line(refused, &read, &later, text);
            free(read);
        }
        Err(_) => text.fail(),
    }
}
