//! The cause of each rule.
use crate::refusal::Refusal;
use vt_causes::Cause;
use vt_spec::errors::Rule;

/// Why a rule refuses a call; nothing where memory is short, and of S1, whose lines are no calls.
pub fn cause_of<'a>(refusal: &Refusal<'a>) -> Option<Cause<'a>> {
    match refusal.rule {
        Rule::S1 => None,
        Rule::S2 => refusal.of_namespace(),
        Rule::S3 => Some(refusal.of_descriptors()),
        Rule::S4 => refusal.of_descriptor(),
        Rule::S5 => Some(refusal.told("memory is short")),
        Rule::S6 => Some(refusal.of_forks()),
        Rule::K1 => Some(refusal.of_capability()),
        Rule::W1 => Some(refusal.of_empty_text()),
        Rule::W2 => Some(refusal.of_long_text()),
        Rule::W3 => refusal.of_no_directory("{at} is {type}, and a directory is needed"),
        Rule::W4 => refusal.of_walk("{task} may not search {at}: it has {bits}"),
        Rule::W5 => refusal.of_walk("the mounter of {overlay} may not search {at}: it has {bits}"),
        Rule::W6 => refusal.of_walk("`{word}` is missing in {at}"),
        Rule::W7 => refusal.of_walk(
            "{at} is symlink {count} of the path, and {limit} are the most",
        ),
        Rule::W8 => refusal.of_removed(),
        Rule::W9 => refusal.of_walk("{at} is a symlink, and mount {mount} has nosymfollow{since}"),
        Rule::E1 => refusal.of_place_or_word("{at} exists: {type}"),
        Rule::E2 => refusal.of_place_or_word("{at} is a directory"),
        Rule::E3 => refusal.of_place("{at} is {type}, and a directory is needed"),
        Rule::E4 => refusal.of_place_or_word("{at} is not empty: {entry} is in it"),
        Rule::E5 => refusal.of_wrong_kind(),
        Rule::E6 => refusal.of_length(),
        Rule::E7 => refusal.of_place("{at} is a directory"),
        Rule::E8 => refusal.of_place("{at} is {type}, and a regular file is needed"),
        Rule::E9 => refusal.of_place("{at} is a whiteout"),
        Rule::F1 => refusal.of_place("mount {mount} is read-only{since}"),
        Rule::F2 => refusal.of_place("{overlay} is mounted without an upper layer{since}"),
        Rule::F3 => refusal.of_place("mount {mount} has noexec{since}"),
        Rule::L1 => refusal.of_place("{at} is in a layer of an overlay in use{since}"),
        Rule::P1 => refusal.of_mount_point(),
        Rule::P2 => refusal.of_two_mounts(),
        Rule::C1 => refusal.of_place("{task} needs {wanted} of {at}: it has {bits}"),
        Rule::C2 => refusal.of_owner(),
        Rule::C3 => refusal.of_sticky(),
        Rule::O1 | Rule::O3 | Rule::O4 | Rule::B2 => {
            Some(refusal.told("the overlay has an upper layer"))
        }
        Rule::O2 => refusal.of_options(),
        Rule::O5 => refusal.of_overlap(),
        Rule::B1 => refusal.of_place(
            "the mounter of {overlay} needs {wanted} of {at}: it has {bits}",
        ),
        Rule::M2 => refusal.of_elsewhere(),
        Rule::M3 => refusal.of_place("mount {mount} is unbindable{since}"),
        Rule::M4 => refusal.of_shared_parent(),
        Rule::M5 => refusal.of_unbindable_tree(),
        Rule::M6 => refusal.of_own_tree(),
        Rule::M7 => refusal.of_no_root(),
        Rule::M8 => refusal.of_busy_mount(),
        Rule::M9 => refusal.of_full_namespace(),
        Rule::M10 => refusal.of_place("mount {mount} is the root mount of namespace {namespace}"),
        Rule::M11 => refusal.of_root_mount(),
        Rule::M12 => refusal.of_pivot(),
    }
}
