//! What calls answer: values as they are printed, files and directories that are there, and lines without memory.
ghost use Rattle.std.specs.Prelude.{◌≡◌, ℕ, nat_eq, nat_lt, true, false, List, [], ◌∷◌, length, codes, Ok, Err};
ghost use Rattle.vt_spec.specs.Language.Calls.Call.{Write};
ghost use Rattle.vt_spec.specs.Errors.{denial};
ghost use Rattle.vt_spec.specs.Machine.Policy.{policy};
ghost use Rattle.vt_spec.specs.Machine.Run.{first_world, numbers_for, script_text};
ghost use Rattle.vt_spec.specs.Language.Answers.Answer.{Done};
ghost use Rattle.vt_spec.specs.declared.errors.Rule.TheVariants.{E6};

/// Names are listed in the order of their bytes, with one space in front of each, and an empty directory gives none.
#[tactic(auto, unfolding(crate::specs::Opened::computed))]
pub fn listed_names()
    ensures order { script_text [] (codes "t mkdir /b\nt mkdir /a\nt write /B x\nt mkdir /ab\nt write /\\xff x\nt ls /\n") ≡ codes "1 ok\n2 ok\n3 ok\n4 ok\n5 ok\n6 ok B a ab b \\xff\n" }
    ensures empty { script_text [] (codes "t ls /\n") ≡ codes "1 ok\n" }
{}

/// A write sets the whole content, and makes a missing file.
#[tactic(auto, unfolding(crate::specs::Opened::computed))]
pub fn written_bytes()
    ensures made { script_text [] (codes "t write /f hi\nt ls /\n") ≡ codes "1 ok\n2 ok f\n" }
    ensures set { script_text [] (codes "t write /f longer\nt write /f hi\nt read /f\n") ≡ codes "1 ok\n2 ok\n3 ok hi\n" }
    ensures apart { script_text [] (codes "t write /f a\nt write /g b\nt read /f\nt read /g\n") ≡ codes "1 ok\n2 ok\n3 ok a\n4 ok b\n" }
{}

/// A name that is there is not made again, whatever it names.
#[tactic(auto, unfolding(crate::specs::Opened::computed))]
pub fn name_that_is_there()
    ensures directory { script_text [] (codes "t mkdir /d\nt mkdir /d\n") ≡ codes "1 ok\n2 deny 17 EEXIST E1\n" }
    ensures file { script_text [] (codes "t write /f x\nt mkdir /f\n") ≡ codes "1 ok\n2 deny 17 EEXIST E1\n" }
    ensures read_of_a_directory { script_text [] (codes "t mkdir /d\nt read /d\n") ≡ codes "1 ok\n2 deny 21 EISDIR E2\n" }
{}

/// A line that was refused memory answers S5 and counts as no call; the other lines are answered as without it.
///
/// A comment has no answer then either.
#[tactic(auto, unfolding(crate::specs::Opened::computed))]
pub fn refused_memory()
    ensures second { script_text (false ∷ true ∷ []) (codes "t mkdir /d\nt mkdir /e\nt ls /\n") ≡ codes "1 ok\n2 deny 12 ENOMEM S5\n3 ok d\n" }
    ensures all { script_text (true ∷ true ∷ []) (codes "t mkdir /d\nt ls /\n") ≡ codes "1 deny 12 ENOMEM S5\n2 deny 12 ENOMEM S5\n" }
    ensures comment { script_text (true ∷ []) (codes "# nothing\nt ls /\n") ≡ codes "2 ok\n" }
{}

/// E6: a file of more than 1,048,576 bytes, which no line of a script can hold; every shorter one is taken.
#[tactic(auto, unfolding(crate::specs::Opened::computed))]
pub fn largest_file()
    ensures longer { (bytes : List ℕ) → nat_lt 1048576 (length bytes) ≡ true → (policy nat_eq (numbers_for 1) first_world [] (Write (codes "/f") bytes)).answer ≡ Err (denial E6) }
    ensures not_longer { (bytes : List ℕ) → nat_lt 1048576 (length bytes) ≡ false → (policy nat_eq (numbers_for 1) first_world [] (Write (codes "/f") bytes)).answer ≡ Ok Done }
{}
