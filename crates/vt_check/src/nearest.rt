//! Words that are like a given one.
use crate::draft::Draft;
use crate::finding::Diagnosis;
use crate::grammar::{CAPABILITIES, CallWords, Kind, calls};
use crate::unmodelled::nearest_to;
use strsim::osa_distance;
use vt_options::LayerOptions;

/// Whether a word is more like the text than all before it, and how many letters differ then: at most two, or one of a
/// text of up to four.
pub fn is_nearer(found: &mut Diagnosis, text: &str, word: &str, least: &mut usize) -> bool {
    let most = if text.len() <= 4 { 1 } else { 2 };
    match osa_distance(found.alloc, text, word) {
        Ok(distance) if distance <= most && distance < *least => {
            *least = distance;
            true
        }
        Ok(_) => false,
        Err(_) => {
            found.fail();
            false
        }
    }
}

// The word of the list that is like the text: at most two letters differ, or one of a text of up to four.
fn nearest(found: &mut Diagnosis, text: &str, words: &[&'static str]) -> Option<&'static str> {
    let mut nearest = None;
    let mut least = usize::MAX;
    for word in words {
        if is_nearer(found, text, *word, &mut least) {
            nearest = Some(*word);
        }
    }
    nearest
}

/// The call whose name is like the text in whichever case.
pub fn nearest_call(found: &mut Diagnosis, text: &str) -> Option<&'static CallWords> {
    let mut lower = found.draft();
    lower.push_in_case(text, false);
    let lower = found.ended(lower)?;
    let mut nearest = None;
    let mut least = usize::MAX;
    for call in calls(found.version) {
        if is_nearer(found, lower.as_str(), call.name, &mut least) {
            nearest = Some(call);
        }
    }
    nearest
}

// Writes the capability behind a comma that a name means, in whichever case, with or without `CAP_`, and says whether
// it is clear. Of one that is not modelled nothing is written.
fn write_capability(found: &mut Diagnosis, name: &str, text: &mut Draft) -> bool {
    let mut whole = found.draft();
    if !name
        .get(..4)
        .unwrap_or_default()
        .eq_ignore_ascii_case("CAP_")
    {
        whole.push("CAP_");
    }
    whole.push_in_case(name, true);
    let Some(whole) = found.ended(whole) else {
        return false;
    };
    if nearest_to(whole.as_str()).is_some() {
        return true;
    }
    match nearest(found, whole.as_str(), &CAPABILITIES) {
        Some(name) => {
            text.push_after(",", name);
            true
        }
        None => false,
    }
}

// Writes the names of capabilities, each as it is meant, and says whether all are clear.
fn write_capabilities(found: &mut Diagnosis, text: &str, names: &mut Draft) -> bool {
    for part in text.split([',', '+', ';']) {
        if !write_capability(found, part, names) {
            return false;
        }
    }
    names.push_if_empty("-");
    true
}

// Flags of mounts as other systems spell them, each with the one that is meant: nothing where it is not told to be set.
static FLAGS: [(&str, &str); 17] = [
    ("ro", "ro"),
    ("readonly", "ro"),
    ("MS_RDONLY", "ro"),
    ("rw", ""),
    ("defaults", ""),
    ("exec", ""),
    ("symfollow", ""),
    ("remount", ""),
    ("bind", ""),
    ("rbind", ""),
    ("MS_REMOUNT", ""),
    ("MS_BIND", ""),
    ("noexec", "noexec"),
    ("MS_NOEXEC", "noexec"),
    ("nosymfollow", "nosymfollow"),
    ("MS_NOSYMFOLLOW", "nosymfollow"),
    ("0", ""),
];

// The flag that a word means, nothing where it sets none, or no text where none is clear.
fn flag_of(found: &mut Diagnosis, text: &str) -> Option<&'static str> {
    for (from, flag) in &FLAGS {
        if from.eq_ignore_ascii_case(text) {
            return Some(*flag);
        }
    }
    if nearest_to(text).is_some() {
        return Some("");
    }
    nearest(found, text, &["ro", "noexec", "nosymfollow"])
}

/// Writes the flags that words between commas mean, without those that are not modelled, and says whether all are
/// clear.
pub fn write_flags(found: &mut Diagnosis, text: &str, flags: &mut Draft) -> bool {
    let (mut is_read_only, mut is_noexec, mut is_nosymfollow) = (false, false, false);
    for part in text.split([',', '|']) {
        match flag_of(found, part) {
            Some("ro") => is_read_only = true,
            Some("noexec") => is_noexec = true,
            Some("nosymfollow") => is_nosymfollow = true,
            Some(_) => {}
            None => return false,
        }
    }
    flags.push(if is_read_only { "ro" } else { "rw" });
    flags.push(if is_noexec { ",noexec" } else { "" });
    flags.push(if is_nosymfollow { ",nosymfollow" } else { "" });
    true
}

/// Writes the options of an overlay without those that are not modelled, and says whether a run takes them: whether two
/// layers are left at least.
pub fn write_options(found: &mut Diagnosis, text: &str, options: &mut Draft) -> bool {
    let mut kept = found.draft();
    for option in text.split(',') {
        let is_upper = option.starts_with("upperdir=") || option.starts_with("workdir=");
        if !is_upper && nearest_to(option).is_none() {
            kept.push_after(",", option);
        }
    }
    let Some(kept) = found.ended(kept) else {
        return false;
    };
    options.push(kept.as_str());
    match LayerOptions::parse(kept.as_bytes()) {
        Some(all) => all.upper().is_none() && all.lowers().nth(1).is_some(),
        None => false,
    }
}

// The bits of the letters of a mode as chmod(1) has them, as digits for one class, if all are such letters.
fn bits_of(letters: &str) -> Option<u16> {
    let mut bits: u16 = 0;
    for letter in letters.bytes() {
        bits |= match letter {
            b'r' => 4,
            b'w' => 2,
            b'x' | b'X' => 1,
            _ => return None,
        };
    }
    Some(bits)
}

// The bits that a part as `u=rwx` or `u+rwx` names, for each class that it names. A part without a class, or one that
// takes bits away, names none.
fn clause_bits(clause: &str) -> Option<u16> {
    let (classes, letters) = clause.split_once(['=', '+'])?;
    let bits = bits_of(letters)?;
    if classes.is_empty() {
        return None;
    }
    let mut all: u16 = 0;
    for class in classes.bytes() {
        all |= bits.saturating_mul(match class {
            b'u' => 0o100,
            b'g' => 0o10,
            b'o' => 1,
            b'a' => 0o111,
            _ => return None,
        });
    }
    Some(all)
}

// Writes the mode that parts as `u=rwx,go=rx` name, and says whether there is one.
fn write_symbolic(text: &str, mode: &mut Draft) -> bool {
    let mut bits: u16 = 0;
    for clause in text.split(',') {
        match clause_bits(clause) {
            Some(named) => bits |= named,
            None => return false,
        }
    }
    mode.push_octal(bits, 3);
    true
}

// Writes a mode without what a shell or a language writes before it, or in digits where it has letters, and says
// whether there is something.
fn write_mode(text: &str, mode: &mut Draft) -> bool {
    if text.contains(['=', '+']) {
        return write_symbolic(text, mode);
    }
    let digits = text.trim_start_matches("0o").trim_start_matches('0');
    mode.push_char('0');
    mode.push(digits);
    matches!(digits.len(), 1..=3) && digits.len() < text.len()
}

// Writes a task's name, as `t.1` for `t1`, `1` and `t.01`, and says whether there is none of 0.
fn write_task(text: &str, name: &mut Draft) -> bool {
    let text = text
        .trim_start_matches(['t', 'T', '$', '%'])
        .trim_end_matches(':');
    name.push_char('t');
    for part in text.split(['.', '/', '-']) {
        let number = part.trim_start_matches('0');
        if !number.is_empty() {
            name.push_char('.');
            name.push(number);
        } else if !part.is_empty() {
            return false;
        }
    }
    true
}

/// Writes what stands on both sides of a colon as the words for an owner and a group, and says whether there is one.
pub fn write_owner(text: &str, words: &mut Draft) -> bool {
    let Some((user, group)) = text.split_once(':') else {
        return false;
    };
    words.push(if user.is_empty() { "-" } else { user });
    words.push_char(' ');
    words.push(if group.is_empty() { "-" } else { group });
    true
}

// Writes groups, with commas for other marks between them.
fn write_groups(text: &str, groups: &mut Draft) -> bool {
    for part in text.split([';', ':', '.', '+']) {
        groups.push_after(",", part);
    }
    true
}

/// Writes the word of a kind that a text means, and says whether one is clear.
pub fn write_corrected(found: &mut Diagnosis, kind: Kind, text: &str, word: &mut Draft) -> bool {
    let words = kind.words(found.version);
    for (from, synonym) in words.synonyms {
        if *from == text {
            word.push(synonym);
            return true;
        }
    }
    match kind {
        Kind::Capabilities => write_capabilities(found, text, word),
        Kind::Flags => write_flags(found, text, word),
        Kind::Options => write_options(found, text, word),
        Kind::Mode => write_mode(text, word),
        Kind::Task => write_task(text, word),
        Kind::KeptIdentity => write_owner(text, word),
        Kind::Groups => write_groups(text, word),
        _ => match nearest(found, text, words.choices) {
            Some(nearest) => {
                word.push(nearest);
                true
            }
            None => false,
        },
    }
}
