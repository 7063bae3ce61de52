//! Worked examples: sealed.
ghost use Rattle.std.specs.Prelude.{◌≡◌, [], codes, ◌++◌};
ghost use Rattle.vt_spec.specs.Machine.Run.{machine_text, script_text_as};
ghost use Rattle.vt_spec.specs.Language.Script.{Version};

/// A container whose lower layer is the whole outer tree is sealed.
pub fn sealed_container_over_a_locked_image()
    ensures { (version : Version) → machine_text version [] (codes "t mkdir /n\nt mkdir /m\nt write /f img\nt fork\nt.1 unshare\nt.1 mount plain /n\nt.1 mkdir /n/u\n"
        ++ codes "t.1 mkdir /n/w\nt.1 mount overlay /m lowerdir=/,upperdir=/n/u,workdir=/n/w\n! sealed t.1\n"
        ++ codes "t write /f bad\nt.1 write /m/f own\nt read /f\nt.1 read /m/f\n! sealed t\n")
        ≡ codes "1 ok\n2 ok\n3 ok\n4 ok t.1\n5 ok\n6 ok\n7 ok\n8 ok\n9 ok\n10 ok yes\n11 deny 16 EBUSY L1\n12 ok\n"
        ++ codes "13 ok img\n14 ok own\n15 ok no\n" }
{}

/// The same container without the outsider's later calls: the container's answers are equal.
pub fn sealed_container_left_alone()
    ensures { (version : Version) → machine_text version [] (codes "t mkdir /n\nt mkdir /m\nt write /f img\nt fork\nt.1 unshare\nt.1 mount plain /n\nt.1 mkdir /n/u\n"
        ++ codes "t.1 mkdir /n/w\nt.1 mount overlay /m lowerdir=/,upperdir=/n/u,workdir=/n/w\n! sealed t.1\n"
        ++ codes "t.1 write /m/f own\nt.1 read /m/f\n! sealed t\n")
        ≡ codes "1 ok\n2 ok\n3 ok\n4 ok t.1\n5 ok\n6 ok\n7 ok\n8 ok\n9 ok\n10 ok yes\n11 ok\n12 ok own\n13 ok no\n" }
{}

/// A lone task is sealed, a child over a shared tree is not, both together are.
pub fn sealed_or_not()
    ensures { (version : Version) → script_text_as version [] (codes "! sealed t\nt fork\nt.1 unshare\n! sealed t.1\n! sealed t t.1\n! sealed t.9\n")
        ≡ codes "1 ok yes\n2 ok t.1\n3 ok\n4 ok no\n5 ok yes\n6 deny 3 ESRCH S2\n" }
{}

/// The same of the whole machine.
pub fn sealed_or_not_in_the_whole()
    ensures { (version : Version) → machine_text version [] (codes "! sealed t\nt fork\nt.1 unshare\n! sealed t.1\n! sealed t t.1\n! sealed t.9\n")
        ≡ codes "1 ok yes\n2 ok t.1\n3 ok\n4 ok no\n5 ok yes\n6 deny 3 ESRCH S2\n" }
{}

/// A container is not sealed while an outsider's overlay has a layer in its tree.
pub fn outsiders_lower_layer()
    ensures { (version : Version) → machine_text version [] (codes "t mkdir /n\nt mkdir /m\nt mkdir /o\nt mount plain /n\nt mkdir /n/i\nt mkdir /n/j\nt mkdir /n/u\n"
        ++ codes "t mkdir /n/w\nt mount overlay /o lowerdir=/n/i:/n/j\nt fork\nt.1 unshare\nt umount /n\n"
        ++ codes "t.1 umount /o\nt.1 mount overlay /m lowerdir=/,upperdir=/n/u,workdir=/n/w\n! sealed t.1\n"
        ++ codes "t umount /o\n! sealed t.1\n")
        ≡ codes "1 ok\n2 ok\n3 ok\n4 ok\n5 ok\n6 ok\n7 ok\n8 ok\n9 ok\n10 ok t.1\n11 ok\n12 ok\n13 ok\n14 ok\n"
        ++ codes "15 ok no\n16 ok\n17 ok yes\n" }
{}
