//! Lines with several parts, of which each may be lent from elsewhere.
use vt_from::script::Script;

/// Appends a line with two parts in the places of its `{}`.
pub fn say_two<'a>(script: &mut Script, form: &str, first: &'a str, second: &'a str) {
    script.say(form, &[first, second]);
}

/// Appends a line with three parts in the places of its `{}`.
pub fn say_three<'a>(
    script: &mut Script,
    form: &str,
    first: &'a str,
    second: &'a str,
    third: &'a str,
) {
    script.say(form, &[first, second, third]);
}
