//! Calls that change nothing.
ghost use Rattle.vt_laws_rules.specs.Denials.{DenialChangesNothing, DeniedLineChangesNothing, DirectiveChangesNothing, LookChangesNothing, RefusedMemoryChangesNothing};

/// A refused `call`, a script `line` answered by a denial, and a line in which an allocation fails (`memory`) leave the
/// whole world, change numbers included.
pub fn denials_change_nothing()
    ensures call { DenialChangesNothing }
    ensures line { DeniedLineChangesNothing }
    ensures memory { RefusedMemoryChangesNothing }
{}

/// A `call` that only looks, granted or refused, and a `directive` leave the whole world, change numbers included.
pub fn looks_change_nothing()
    ensures call { LookChangesNothing }
    ensures directive { DirectiveChangesNothing }
{}
