//! Which rule refuses a call.
ghost use Rattle.vt_laws_rules.specs.RuleOrder.{DenialHasErrorOfRule, DenialIsOwn, DeniedLineIsOwn, FirstRulesAnswer, FirstTablesInOrder, FollowRulesInReverse, LastRulesAnswer, LastTablesInOrder, LastWordRulesInOrder, MissingBeforeSlash, NoTaskIsRefused, ParentRulesInOrder, RemovedBeforeSlash, RemovedBeforeSlashOfRename, StepRulesInOrder, TextRulesInOrder, WalksAnswerNext, WalksRefuseAsWalks};

/// A call is refused by S2, its own rules or those of its walks alone (`own`), with the rule's error (`error`). A
/// `line` may also be refused by S1 and S5, a directive only by S1, S2 and S5.
pub fn denials_are_by_own_rules()
    ensures own { DenialIsOwn }
    ensures error { DenialHasErrorOfRule }
    ensures line { DeniedLineIsOwn }
{}

/// Of several failing rules the least in the policy's order answers: S2 (`no_task`), then S and K rules (`first`), then
/// a refused walk (`walks`), then the call's last table (`last`).
///
/// - `no_task`: a call of a task that does not exist is refused by S2.
/// - `first`: if S or K rules that are checked before the walks fail, the least of them answers.
/// - `walks`: if none of these fails, a refused walk is the call's refusal, path by path.
/// - `last`: if no walk is refused, the least failing rule of the last table answers. If none fails, the call is
///   granted.
/// - `walk_rules`: a walk is refused by rules of walks, or by its special last word.
pub fn the_least_rule_answers()
    ensures no_task { NoTaskIsRefused }
    ensures first { FirstRulesAnswer }
    ensures walks { WalksAnswerNext }
    ensures last { LastRulesAnswer }
    ensures walk_rules { WalksRefuseAsWalks }
{}

/// The tables `first`, `last`, `texts`, `steps`, `parents` and `last_words` are in the policy's order: by letter (S, K,
/// W, E, F, L, P, C, O, B, M), then number. Exceptions: `links`, `removed_before_slash`,
/// `removed_before_slash_of_rename`, `missing_before_slash`.
///
/// Tables checked before the walks end below W1 (`first`), those after them begin beyond W9 (`last`). So do the special
/// last words of `rmdir` and of an exclusive `open` (`last_words`). The exceptions:
///
/// - `links`: of a symlink W9 is checked before W7, and W7 before W2.
/// - `removed_before_slash`, `removed_before_slash_of_rename`: a removed directory (W8) answers before a slash behind a
///   missing name (W6; of a rename W3).
/// - `missing_before_slash`: a missing name (W6) answers before the slash behind it (W3).
pub fn tables_are_in_order()
    ensures first { FirstTablesInOrder }
    ensures last { LastTablesInOrder }
    ensures texts { TextRulesInOrder }
    ensures steps { StepRulesInOrder }
    ensures parents { ParentRulesInOrder }
    ensures last_words { LastWordRulesInOrder }
    ensures links { FollowRulesInReverse }
    ensures removed_before_slash { RemovedBeforeSlash }
    ensures removed_before_slash_of_rename { RemovedBeforeSlashOfRename }
    ensures missing_before_slash { MissingBeforeSlash }
{}
