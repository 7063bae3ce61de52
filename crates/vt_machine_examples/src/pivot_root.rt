//! Worked examples: pivot root.
ghost use Rattle.std.specs.Prelude.{◌≡◌, [], codes, ◌++◌};
ghost use Rattle.vt_spec.specs.Machine.Run.{machine_text, script_text_as};
ghost use Rattle.vt_spec.specs.Language.Script.Version.{One, Two};

/// The root mount is exchanged and the old one unmounted.
pub fn old_root_below_the_new_one()
    ensures { machine_text Two [] (codes "t mkdir /n\nt mount plain /n\nt mkdir /n/old\nt write /n/f new\nt pivot_root /n /n/old\nt ls /\n"
        ++ codes "t ls .\nt ls /old\nt mounts\nt umount /old\nt mounts\nt pivot_root / /\n")
        ≡ codes "1 ok\n2 ok\n3 ok\n4 ok\n5 ok\n6 ok f old\n7 ok f old\n8 ok n\n9 ok 2\n"
        ++ codes "9 1 2 /old plain:1 / rw private\n9 2 - - plain:2 / rw private\n10 ok\n11 ok 1\n"
        ++ codes "11 1 - - plain:1 / rw private\n12 deny 16 EBUSY M11\n" }
{}

/// A shared parent is refused; the old root is put onto the new one.
pub fn old_root_stacked_on_the_new_one()
    ensures { machine_text Two [] (codes "t mkdir /n\nt mount plain /n\nt mkdir /n/old\nt type / shared\nt pivot_root /n /n/old\n"
        ++ codes "t type / private\nt pivot_root /n /n\nt ls /\nt umount /old/..\nt mounts\n")
        ≡ codes "1 ok\n2 ok\n3 ok\n4 ok\n5 deny 22 EINVAL M12\n6 ok\n7 ok\n8 ok old\n9 ok\n10 ok 1\n"
        ++ codes "10 1 - - plain:1 / rw private\n" }
{}

/// The first version of the language has no such call. The product has it in the second.
#[tactic(auto, unfolding(crate::specs::Opened::computed))]
pub fn pivot_root_by_version()
    ensures first { script_text_as One [] (codes "t pivot_root / /\n") ≡ codes "1 deny 22 EINVAL S1\n" }
    ensures second { script_text_as Two [] (codes "t pivot_root / /\n") ≡ codes "1 deny 16 EBUSY M11\n" }
{}
