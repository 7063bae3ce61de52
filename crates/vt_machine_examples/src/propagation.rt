//! Worked examples: propagation.
ghost use Rattle.std.specs.Prelude.{◌≡◌, [], codes, ◌++◌};
ghost use Rattle.vt_spec.specs.Machine.Run.{machine_text};
ghost use Rattle.vt_spec.specs.Language.Script.{Version};

/// A shared mount is bound to a place in itself.
pub fn shared_mount_bound_into_itself()
    ensures { (version : Version) → machine_text version [] (codes "t mkdir /a\nt mount plain /a\nt type /a shared\nt mkdir /a/b\nt bind /a /a/b\nt mounts\n")
        ≡ codes "1 ok\n2 ok\n3 ok\n4 ok\n5 ok\n6 ok 3\n6 1 - - plain:1 / rw private\n6 2 1 /a plain:2 / rw shared:1\n"
        ++ codes "6 3 2 /b plain:2 / rw shared:1\n" }
{}

/// One mount is shared, slave and private in three namespaces.
pub fn shared_slave_private()
    ensures { (version : Version) → machine_text version [] (codes "t mkdir /a\nt mount plain /a\nt type /a shared\nt mkdir /a/b\nt mkdir /a/d\nt fork\nt.1 unshare\n"
        ++ codes "t.1 type /a slave\nt fork\nt.2 unshare\nt.2 type /a private\nt mount plain /a/b\n"
        ++ codes "t.1 mount plain /a/d\nt.1 mounts\nt mounts\nt.2 mounts\n")
        ≡ codes "1 ok\n2 ok\n3 ok\n4 ok\n5 ok\n6 ok t.1\n7 ok\n8 ok\n9 ok t.2\n10 ok\n11 ok\n12 ok\n13 ok\n14 ok 4\n"
        ++ codes "14 1 - - plain:1 / rw private\n14 2 1 /a plain:2 / rw slave:1\n14 3 2 /b plain:3 / rw slave:2\n"
        ++ codes "14 4 2 /d plain:4 / rw private\n15 ok 3\n15 1 - - plain:1 / rw private\n"
        ++ codes "15 2 1 /a plain:2 / rw shared:1\n15 3 2 /b plain:3 / rw shared:2\n16 ok 2\n"
        ++ codes "16 1 - - plain:1 / rw private\n16 2 1 /a plain:2 / rw private\n" }
{}

/// Copies at a slave that is shared too form a group of their own.
pub fn slave_made_shared_with_a_peer()
    ensures { (version : Version) → machine_text version [] (codes "t mkdir /a\nt mount plain /a\nt type /a shared\nt mkdir /a/b\nt fork\nt.1 unshare\n"
        ++ codes "t.1 type /a slave\nt.1 type /a shared\nt.1 fork\nt.1.1 unshare\nt mount plain /a/b\n! peers\n")
        ≡ codes "1 ok\n2 ok\n3 ok\n4 ok\n5 ok t.1\n6 ok\n7 ok\n8 ok\n9 ok t.1.1\n10 ok\n11 ok\n12 ok 4\n"
        ++ codes "12 1 - 1.2 -\n12 2 - 1.3 -\n12 3 1 2.2,3.2 -\n12 4 2 2.3,3.3 -\n" }
{}

/// A copy goes beneath the mount that stands at the place, and an unmount takes it out again.
pub fn receiver_with_a_mount_at_the_place()
    ensures { (version : Version) → machine_text version [] (codes "t mkdir /a\nt mount plain /a\nt type /a shared\nt mkdir /a/b\nt fork\nt.1 unshare\n"
        ++ codes "t.1 type /a slave\nt.1 mount plain /a/b\nt.1 mkdir /a/b/x\nt mount plain /a/b\nt.1 ls /a/b\n"
        ++ codes "t.1 mounts\nt umount /a/b\nt.1 ls /a/b\nt.1 mounts\n")
        ≡ codes "1 ok\n2 ok\n3 ok\n4 ok\n5 ok t.1\n6 ok\n7 ok\n8 ok\n9 ok\n10 ok\n11 ok x\n12 ok 4\n"
        ++ codes "12 1 - - plain:1 / rw private\n12 2 1 /a plain:2 / rw slave:1\n12 3 4 / plain:3 / rw private\n"
        ++ codes "12 4 2 /b plain:4 / rw slave:2\n13 ok\n14 ok x\n15 ok 3\n15 1 - - plain:1 / rw private\n"
        ++ codes "15 2 1 /a plain:2 / rw slave:1\n15 3 2 /b plain:3 / rw private\n" }
{}

/// Moves that are refused; busy in another namespace; a lazy unmount.
pub fn refused_moves_and_busy_elsewhere()
    ensures { (version : Version) → machine_text version [] (codes "t mkdir /a\nt mount plain /a\nt type /a shared\nt mkdir /a/b\nt mount plain /a/b\nt mkdir /c\n"
        ++ codes "t move /a/b /c\nt move /a /a/b\nt fork\nt.1 unshare\nt.1 chdir /a/b\nt umount /a/b\nt lazy /a/b\n"
        ++ codes "t.1 ls .\n")
        ≡ codes "1 ok\n2 ok\n3 ok\n4 ok\n5 ok\n6 ok\n7 deny 22 EINVAL M4\n8 deny 40 ELOOP M6\n9 ok t.1\n10 ok\n"
        ++ codes "11 ok\n12 deny 16 EBUSY M8\n13 ok\n14 ok\n" }
{}

/// Peers and slaves as mounts leave their groups.
pub fn groups_that_lose_members()
    ensures { (version : Version) → machine_text version [] (codes "t mkdir /a\nt mount plain /a\nt type /a shared\nt fork\nt.1 unshare\nt.1 type /a slave\n"
        ++ codes "t.1 type /a shared\nt.1 fork\nt.1.1 unshare\n! peers\nt.1 type /a slave\n! peers\n"
        ++ codes "t.1.1 type /a slave\n! peers\nt type /a private\n! peers\n")
        ≡ codes "1 ok\n2 ok\n3 ok\n4 ok t.1\n5 ok\n6 ok\n7 ok\n8 ok t.1.1\n9 ok\n10 ok 2\n10 1 - 1.2 -\n"
        ++ codes "10 2 1 2.2,3.2 -\n11 ok\n12 ok 2\n12 1 - 1.2 -\n12 2 1 3.2 2.2\n13 ok\n14 ok 1\n14 1 - 1.2 2.2,3.2\n"
        ++ codes "15 ok\n16 ok 0\n" }
{}

/// An unbindable mount is not moved onto a shared one.
pub fn unbindable_moved_onto_shared()
    ensures { (version : Version) → machine_text version [] (codes "t mkdir /s\nt mount plain /s\nt type /s shared\nt mkdir /s/d\nt mkdir /p\nt mount plain /p\n"
        ++ codes "t type /p unbindable\nt move /p /s/d\nt type /p private\nt move /p /s/d\nt mounts\n")
        ≡ codes "1 ok\n2 ok\n3 ok\n4 ok\n5 ok\n6 ok\n7 ok\n8 deny 22 EINVAL M5\n9 ok\n10 ok\n11 ok 3\n"
        ++ codes "11 1 - - plain:1 / rw private\n11 2 1 /s plain:2 / rw shared:1\n11 3 2 /d plain:3 / rw shared:2\n" }
{}

/// All mounts are shared, then slaves in another namespace.
pub fn types_of_a_whole_tree()
    ensures { (version : Version) → machine_text version [] (codes "t mkdir /a\nt mount plain /a\nt rtype / shared\nt fork\nt.1 unshare\nt.1 rtype / slave\n"
        ++ codes "t mount plain /a\n! peers\n")
        ≡ codes "1 ok\n2 ok\n3 ok\n4 ok t.1\n5 ok\n6 ok\n7 ok\n8 ok 3\n8 1 - 1.1 2.1\n8 2 - 1.2 2.2\n8 3 - 1.3 2.3\n" }
{}
