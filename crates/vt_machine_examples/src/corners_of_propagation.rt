//! Worked examples: corners of propagation.
ghost use Rattle.std.specs.Prelude.{◌≡◌, [], codes, ◌++◌};
ghost use Rattle.vt_spec.specs.Machine.Run.{machine_text};
ghost use Rattle.vt_spec.specs.Language.Script.Version.{One};

/// What becomes of the slaves of a group that loses its members.
pub fn slaves_of_an_emptied_group()
    ensures { machine_text One [] (codes "t mkdir /a\nt mount plain /a\nt type /a shared\nt fork\nt.1 unshare\nt.1 type /a slave\n"
        ++ codes "t.1 type /a shared\nt.1 fork\nt.1.1 unshare\nt.1.1 type /a slave\n! peers\nt.1 exit\n! peers\n"
        ++ codes "t.1.1 mounts\nt lazy /a\nt.1.1 mounts\n! peers\n")
        ≡ codes "1 ok\n2 ok\n3 ok\n4 ok t.1\n5 ok\n6 ok\n7 ok\n8 ok t.1.1\n9 ok\n10 ok\n11 ok 2\n11 1 - 1.2 -\n"
        ++ codes "11 2 1 2.2 3.2\n12 ok\n13 ok 1\n13 1 - 1.2 2.2\n14 ok 2\n14 1 - - plain:1 / rw private\n"
        ++ codes "14 2 1 /a plain:2 / rw slave:1\n15 ok\n16 ok 2\n16 1 - - plain:1 / rw private\n"
        ++ codes "16 2 1 /a plain:2 / rw private\n17 ok 0\n" }
{}

/// A chain of mounts over one place goes, and what covers it takes the place that is left.
pub fn chains_of_covers()
    ensures { machine_text One [] (codes "t mkdir /a\nt mount plain /a\nt type /a shared\nt mkdir /a/b\nt mount plain /a/b\nt mkdir /a/b/x\n"
        ++ codes "t mount plain /a/b\nt mkdir /a/b/y\nt mounts\nt umount /a/b\nt ls /a/b\nt fork\nt.1 unshare\n"
        ++ codes "t.1 mount plain /a/b\nt.1 mounts\nt mounts\nt.1 type /a/b private\nt umount /a/b\nt.1 mounts\n"
        ++ codes "t.1 type /a/b private\nt.1 mount plain /a/b\nt.1 mkdir /a/b/z\nt umount /a/b\nt.1 ls /a/b\n"
        ++ codes "t.1 mounts\n")
        ≡ codes "1 ok\n2 ok\n3 ok\n4 ok\n5 ok\n6 ok\n7 ok\n8 ok\n9 ok 4\n9 1 - - plain:1 / rw private\n"
        ++ codes "9 2 1 /a plain:2 / rw shared:1\n9 3 2 /b plain:3 / rw shared:2\n9 4 3 / plain:4 / rw shared:3\n"
        ++ codes "10 ok\n11 ok x\n12 ok t.1\n13 ok\n14 ok\n15 ok 4\n15 1 - - plain:1 / rw private\n"
        ++ codes "15 2 1 /a plain:2 / rw shared:1\n15 3 2 /b plain:3 / rw shared:2\n15 4 3 / plain:4 / rw shared:3\n"
        ++ codes "16 ok 4\n16 1 - - plain:1 / rw private\n16 2 1 /a plain:2 / rw shared:1\n"
        ++ codes "16 3 2 /b plain:3 / rw shared:2\n16 4 3 / plain:4 / rw shared:3\n17 ok\n18 ok\n19 ok 3\n"
        ++ codes "19 1 - - plain:1 / rw private\n19 2 1 /a plain:2 / rw shared:1\n19 3 2 /b plain:3 / rw shared:2\n"
        ++ codes "20 ok\n21 ok\n22 ok\n23 ok\n24 ok z\n25 ok 3\n25 1 - - plain:1 / rw private\n"
        ++ codes "25 2 1 /a plain:2 / rw shared:1\n25 3 2 /b plain:3 / rw private\n" }
{}

/// A tree is bound onto a shared mount with a peer and a slave.
pub fn a_recursive_bind_of_shared_mounts()
    ensures { machine_text One [] (codes "t mkdir /a\nt mount plain /a\nt type /a shared\nt mkdir /a/d\nt mkdir /s\nt mount plain /s\n"
        ++ codes "t mkdir /s/p\nt mkdir /s/q\nt mount plain /s/p\nt mount plain /s/q\nt type /s/q unbindable\nt fork\n"
        ++ codes "t.1 unshare\nt.1 type /a slave\nt rbind /s /a/d\nt mounts\nt.1 mounts\n! peers\nt move /s /a/d\n"
        ++ codes "t type /s/q private\nt move /s /a/d\nt ls /a/d\nt.1 mounts\n")
        ≡ codes "1 ok\n2 ok\n3 ok\n4 ok\n5 ok\n6 ok\n7 ok\n8 ok\n9 ok\n10 ok\n11 ok\n12 ok t.1\n13 ok\n14 ok\n15 ok\n"
        ++ codes "16 ok 7\n16 1 - - plain:1 / rw private\n16 2 1 /a plain:2 / rw shared:1\n"
        ++ codes "16 3 1 /s plain:3 / rw private\n16 4 3 /p plain:4 / rw private\n16 5 3 /q plain:5 / rw unbindable\n"
        ++ codes "16 6 2 /d plain:3 / rw shared:2\n16 7 6 /p plain:4 / rw shared:3\n17 ok 7\n"
        ++ codes "17 1 - - plain:1 / rw private\n17 2 1 /a plain:2 / rw slave:1\n17 3 1 /s plain:3 / rw private\n"
        ++ codes "17 4 3 /p plain:4 / rw private\n17 5 3 /q plain:5 / rw unbindable\n17 6 2 /d plain:3 / rw slave:2\n"
        ++ codes "17 7 6 /p plain:4 / rw slave:3\n18 ok 3\n18 1 - 1.2 2.2\n18 2 - 1.6 2.6\n18 3 - 1.7 2.7\n"
        ++ codes "19 deny 22 EINVAL M5\n20 ok\n21 ok\n22 ok p q\n23 ok 10\n23 1 - - plain:1 / rw private\n"
        ++ codes "23 2 1 /a plain:2 / rw slave:1\n23 3 1 /s plain:3 / rw private\n23 4 3 /p plain:4 / rw private\n"
        ++ codes "23 5 3 /q plain:5 / rw unbindable\n23 6 2 /d plain:3 / rw slave:2\n23 7 6 /p plain:4 / rw slave:3\n"
        ++ codes "23 8 6 / plain:3 / rw slave:4\n23 9 8 /p plain:4 / rw slave:5\n23 10 8 /q plain:5 / rw slave:6\n" }
{}

/// A receiver inside the moved tree has a mount at the place.
pub fn a_child_of_what_moves_is_pushed_up()
    ensures { machine_text One [] (codes "t mkdir /a\nt mkdir /b\nt mount plain /a\nt mkdir /a/p\nt type /a shared\nt mount plain /b\n"
        ++ codes "t mkdir /b/x\nt bind /a /b/x\nt type /b/x slave\nt mount plain /b/x/p\nt mounts\nt move /b /a/p\n"
        ++ codes "t mounts\n")
        ≡ codes "1 ok\n2 ok\n3 ok\n4 ok\n5 ok\n6 ok\n7 ok\n8 ok\n9 ok\n10 ok\n11 ok 5\n"
        ++ codes "11 1 - - plain:1 / rw private\n11 2 1 /a plain:2 / rw shared:1\n11 3 1 /b plain:3 / rw private\n"
        ++ codes "11 4 3 /x plain:2 / rw slave:1\n11 5 4 /p plain:4 / rw private\n12 ok\n13 ok 8\n"
        ++ codes "13 1 - - plain:1 / rw private\n13 2 1 /a plain:2 / rw shared:1\n13 3 2 /p plain:3 / rw shared:2\n"
        ++ codes "13 4 3 /x plain:2 / rw shared:3,slave:1\n13 5 6 / plain:4 / rw shared:4\n"
        ++ codes "13 6 4 /p plain:3 / rw slave:2\n13 7 6 /x plain:2 / rw slave:3\n13 8 7 /p plain:4 / rw slave:4\n" }
{}

/// A location of a shared mount is bound onto itself. The copies hear its group, so the unmount takes what stood at a
/// receiver, too.
pub fn a_location_bound_onto_itself()
    ensures { machine_text One [] (codes "t mkdir /a\nt mount plain /a\nt type /a shared\nt mkdir /a/b\nt fork\nt.1 unshare\n"
        ++ codes "t.1 type /a slave\nt.1 mount plain /a/b\nt.1 mkdir /a/b/x\nt bind /a/b /a/b\nt.1 ls /a/b\n"
        ++ codes "t.1 mounts\nt umount /a/b\nt.1 ls /a/b\nt.1 mounts\n")
        ≡ codes "1 ok\n2 ok\n3 ok\n4 ok\n5 ok t.1\n6 ok\n7 ok\n8 ok\n9 ok\n10 ok\n11 ok x\n12 ok 4\n"
        ++ codes "12 1 - - plain:1 / rw private\n12 2 1 /a plain:2 / rw slave:1\n12 3 4 / plain:3 / rw private\n"
        ++ codes "12 4 2 /b plain:2 /b rw slave:1\n13 ok\n14 ok\n15 ok 2\n15 1 - - plain:1 / rw private\n"
        ++ codes "15 2 1 /a plain:2 / rw slave:1\n" }
{}
