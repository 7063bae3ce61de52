//! Which calls a permit is given to.
ghost use Rattle.vt_laws_rules.specs.Given.{PermitsAreForTheirCalls};
ghost use Rattle.vt_laws_rules.specs.Granted.{CallsAreGranted, GrantsAreJudged};

/// Each of the 31 permits is granted to its own calls alone, and holds what the call asked for. Of where paths,
/// descriptors and task names lead, and of what a new object holds, this says nothing.
///
/// What it holds as asked: bytes, offset, size, the access of `open`, mode, owner, group, mark, umask, flags of a
/// mount, type, and whether a bind or a change of type is recursive. So with the credentials of `drop` and `fork`, and
/// the number that `close` names.
pub fn permits_are_for_their_calls()
    ensures { PermitsAreForTheirCalls }
{}

/// For any given answers to M9, `judge` grants a permit just if what the call asks leads to it (`IsGrantedBy`;
/// `granted`, `judged`): each walk ends, no rule fails, and the permit is that of the places where the walks end.
pub fn calls_are_granted_in_these_ways()
    ensures granted { CallsAreGranted }
    ensures judged { GrantsAreJudged }
{}
