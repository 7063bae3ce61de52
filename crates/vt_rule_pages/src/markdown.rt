//! All rules as a page of the documentation.
use crate::pages::{RULES, page_of};
use std::alloc::{AllocError, Global};
use vt_check::draft::Draft;
use vt_spec::errors::Rule;

const HEAD: &str = "# The rules

A call is refused by the first rule that fails. This is their order; `vtree rules` prints this page in short, and
`vtree rules WORD` what there is of a rule, an error or a call. It is written by `checks/rules --write`.
";

// Appends the calls of a rule with commas between them.
fn push_calls(text: &mut Draft, calls: &[&str]) {
    if calls.is_empty() {
        text.push("Not in this version.\n");
        return;
    }
    let mut before = "Calls: `";
    for call in calls {
        text.push(before);
        text.push(call);
        before = "`, `";
    }
    text.push("`.\n");
}

// Appends the section of a rule.
fn push_rule(text: &mut Draft, rule: Rule) {
    let (page, errno) = (page_of(rule), rule.errno());
    text.fill("\n## {}: {} ", &[rule.name(), errno.name()]);
    text.push_number(u64::from(errno.number()));
    text.fill("\n\nWhen: {}. Manual: {}. ", &[page.meaning, page.manual]);
    push_calls(text, page.calls);
    if !page.script.is_empty() {
        text.fill("\n```\n{}```\n", &[page.script]);
    }
}

/// The page.
pub fn page(alloc: Global) -> Result<String, AllocError> {
    let mut text = Draft::new(alloc);
    text.push(HEAD);
    for rule in &RULES {
        push_rule(&mut text, *rule);
    }
    text.end()
}
