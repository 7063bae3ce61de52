//! Worked examples of lines in which an allocation may fail, each a theorem by computation.
ghost use Rattle.std.specs.Prelude.{[], ◌∷◌, None, false, true};
ghost use Rattle.vt_spec.specs.Language.Script.Version.{One};
ghost use Rattle.vt_script.specs.Examples.{made, making, making_twice};
ghost use Rattle.vt_script.specs.Handed.{IsHanded};
ghost use Rattle.vt_script.specs.Refused.{MayBeRefusedIn};

/// A `mkdir` of a name that exists is never S5 (`refused`, `handed`). One that is granted may be (`granted`), and then
/// the next may be too.
pub fn mkdir_of_a_name_that_exists()
    ensures refused { ¬ MayBeRefusedIn One making_twice (false ∷ true ∷ []) }
    ensures handed { ¬ IsHanded One made making None }
    ensures granted { MayBeRefusedIn One making_twice (true ∷ true ∷ []) }
{}
