//! Rights and capabilities, and the rule that answers where several fail.
ghost use Rattle.std.specs.Prelude.{◌≡◌, [], codes};
ghost use Rattle.vt_spec.specs.Machine.Run.{script_text};

/// The owner's bits alone count for the owner, and a new object loses the umask's bits.
#[tactic(auto, unfolding(crate::specs::Opened::computed))]
pub fn owner_bits_alone()
    ensures other_bits { script_text [] (codes "t mkdir /n 77\nt drop *\nt ls /n\n") ≡ codes "1 ok\n2 ok\n3 deny 13 EACCES C1\n" }
    ensures owner_bits { script_text [] (codes "t mkdir /n 700\nt drop *\nt mkdir /n/d\nt ls /n\n") ≡ codes "1 ok\n2 ok\n3 ok\n4 ok d\n" }
    ensures without_mode { script_text [] (codes "t mkdir /n\nt drop *\nt write /n/f x\nt read /n/f\n") ≡ codes "1 ok\n2 ok\n3 ok\n4 ok x\n" }
{}

/// C1: a list wants read, and a new name write on its directory.
#[tactic(auto, unfolding(crate::specs::Opened::computed))]
pub fn rights_that_are_asked()
    ensures list { script_text [] (codes "t mkdir /n 300\nt drop *\nt ls /n\nt mkdir /n/d\n") ≡ codes "1 ok\n2 ok\n3 deny 13 EACCES C1\n4 ok\n" }
    ensures made { script_text [] (codes "t mkdir /n 500\nt drop *\nt ls /n\nt mkdir /n/d\nt write /n/f x\n") ≡ codes "1 ok\n2 ok\n3 ok\n4 deny 13 EACCES C1\n5 deny 13 EACCES C1\n" }
    ensures rewritten { script_text [] (codes "t mkdir /n 500\nt write /n/f x\nt drop *\nt write /n/f y\nt read /n/f\n") ≡ codes "1 ok\n2 ok\n3 ok\n4 ok\n5 ok y\n" }
{}

/// `CAP_DAC_OVERRIDE` grants every right on a directory, `CAP_DAC_READ_SEARCH` read and search, and the others none.
#[tactic(auto, unfolding(crate::specs::Opened::computed))]
pub fn capabilities_that_grant()
    ensures both { script_text [] (codes "t mkdir /n 0\nt mkdir /n/d\nt ls /n\n") ≡ codes "1 ok\n2 ok\n3 ok d\n" }
    ensures dac_override { script_text [] (codes "t drop CAP_DAC_READ_SEARCH\nt mkdir /n 0\nt mkdir /n/d\nt ls /n\n") ≡ codes "1 ok\n2 ok\n3 ok\n4 ok d\n" }
    ensures dac_read_search { script_text [] (codes "t mkdir /n 0\nt mkdir /n/d\nt drop CAP_DAC_OVERRIDE\nt ls /n\nt ls /n/d\nt mkdir /n/e\n") ≡ codes "1 ok\n2 ok\n3 ok\n4 ok d\n5 ok\n6 deny 13 EACCES C1\n" }
    ensures the_others { script_text [] (codes "t mkdir /n 0\nt drop CAP_DAC_OVERRIDE,CAP_DAC_READ_SEARCH\nt ls /n\n") ≡ codes "1 ok\n2 ok\n3 deny 13 EACCES C1\n" }
    ensures none_dropped { script_text [] (codes "t mkdir /n 0\nt drop -\nt ls /n\n") ≡ codes "1 ok\n2 ok\n3 ok\n" }
{}

/// Where several rules fail, the first in the policy's order answers.
#[tactic(auto, unfolding(crate::specs::Opened::computed))]
pub fn first_rule_that_fails()
    ensures task_before_path { script_text [] (codes "t.1 ls \\e\n") ≡ codes "1 deny 3 ESRCH S2\n" }
    ensures walk_before_entry { script_text [] (codes "t mkdir /n 0\nt mkdir /n/d\nt drop *\nt mkdir /n/d\n") ≡ codes "1 ok\n2 ok\n3 ok\n4 deny 13 EACCES W4\n" }
    ensures there_before_rights { script_text [] (codes "t mkdir /n 500\nt mkdir /n/d\nt drop *\nt mkdir /n/d\n") ≡ codes "1 ok\n2 ok\n3 ok\n4 deny 17 EEXIST E1\n" }
    ensures special_word_before_rights { script_text [] (codes "t mkdir /n 500\nt drop *\nt write /n/. x\nt mkdir /n/..\n") ≡ codes "1 ok\n2 ok\n3 deny 21 EISDIR E2\n4 deny 17 EEXIST E1\n" }
    ensures kind_before_rights { script_text [] (codes "t mkdir /n 0\nt drop *\nt read /n\n") ≡ codes "1 ok\n2 ok\n3 deny 21 EISDIR E2\n" }
    ensures search_before_name { script_text [] (codes "t mkdir /n 0\nt drop *\nt read /n/x\n") ≡ codes "1 ok\n2 ok\n3 deny 13 EACCES W4\n" }
{}
