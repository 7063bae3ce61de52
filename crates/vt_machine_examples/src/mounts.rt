//! Worked examples: mounts.
ghost use Rattle.std.specs.Prelude.{◌≡◌, [], codes, ◌++◌};
ghost use Rattle.vt_spec.specs.Machine.Run.{machine_text};
ghost use Rattle.vt_spec.specs.Language.Script.{Version};
ghost use Rattle.vt_spec.specs.Language.Script.Version.{One};

/// A working directory under a later mount; .. crosses a mount root.
pub fn covered_working_directory()
    ensures { (version : Version) → machine_text version [] (codes "t mkdir /m\nt mkdir /m/old\nt chdir /m\nt mount plain /m\nt mkdir /m/x\nt ls .\nt ls ../m\nt ls /m/..\n")
        ≡ codes "1 ok\n2 ok\n3 ok\n4 ok\n5 ok\n6 ok old\n7 ok x\n8 ok m\n" }
{}

/// Two mounts of one tree have flags of their own; no rename between them.
pub fn one_tree_two_mounts()
    ensures { (version : Version) → machine_text version [] (codes "t mkdir /a\nt mkdir /b\nt mount plain /a rw,noexec\nt write /a/f q\nt chmod /a/f 755\nt bind /a /b\n"
        ++ codes "t rename /a/f /b/g\nt exec /b/f\nt remount /b ro\nt exec /b/f\nt write /b/f y\nt write /a/f y\n")
        ≡ codes "1 ok\n2 ok\n3 ok\n4 ok\n5 ok\n6 ok\n7 deny 18 EXDEV P2\n8 deny 13 EACCES F3\n9 ok\n10 ok\n"
        ++ codes "11 deny 30 EROFS F1\n12 ok\n" }
{}

/// A recursive bind copies the mounts below; busy and refused unmounts; a move.
pub fn recursive_bind_unmount_and_move()
    ensures { (version : Version) → machine_text version [] (codes "t mkdir /a\nt mount plain /a\nt mkdir /a/b\nt mount plain /a/b ro\nt mkdir /a/b/x\nt mkdir /c\n"
        ++ codes "t rbind /a /c\nt mounts\nt umount /a\nt lazy /\nt umount /c/b\nt umount /c\nt move /a/b /c\n"
        ++ codes "t umount /a/b\nt mounts\n")
        ≡ codes "1 ok\n2 ok\n3 ok\n4 ok\n5 deny 30 EROFS F1\n6 ok\n7 ok\n8 ok 5\n8 1 - - plain:1 / rw private\n"
        ++ codes "8 2 1 /a plain:2 / rw private\n8 3 2 /b plain:3 / ro private\n8 4 1 /c plain:2 / rw private\n"
        ++ codes "8 5 4 /b plain:3 / ro private\n9 deny 16 EBUSY M8\n10 deny 22 EINVAL M10\n11 ok\n12 ok\n13 ok\n"
        ++ codes "14 deny 22 EINVAL M7\n15 ok 3\n15 1 - - plain:1 / rw private\n15 2 1 /a plain:2 / rw private\n"
        ++ codes "15 3 1 /c plain:3 / ro private\n" }
{}

/// .. and absolute links stay under a changed root.
pub fn changed_root()
    ensures { (version : Version) → machine_text version [] (codes "t mkdir /r\nt symlink /x /r/l\nt mkdir /r/x\nt chroot /r\nt ls /..\nt chdir /l\nt ls .\n")
        ≡ codes "1 ok\n2 ok\n3 ok\n4 ok\n5 ok l x\n6 ok\n7 ok\n" }
{}

/// Where several rules fail at once, the first in order answers.
pub fn denials_in_their_order()
    ensures { (version : Version) → machine_text version [] (codes "t mkdir /a\nt mount plain /a\nt mkdir /a/d\nt remount /a ro\nt fork 7 7 - -\nt.1 mkdir /a/d\n"
        ++ codes "t.1 rmdir /a/d\nt remount /a rw\nt mount plain /a/d\nt.1 rmdir /a/d\nt umount /a/d\nt.1 rmdir /a/d\n"
        ++ codes "t.1 umount /nope\n")
        ≡ codes "1 ok\n2 ok\n3 ok\n4 ok\n5 ok t.1\n6 deny 17 EEXIST E1\n7 deny 30 EROFS F1\n8 ok\n9 ok\n"
        ++ codes "10 deny 16 EBUSY P1\n11 ok\n12 deny 13 EACCES C1\n13 deny 1 EPERM K1\n" }
{}

/// The nosymfollow flag is no word of script version 1.
pub fn nosymfollow_in_version_1()
    ensures { machine_text One [] (codes "t mkdir /a\nt mount plain /a rw,nosymfollow\n") ≡ codes "1 ok\n2 deny 22 EINVAL S1\n" }
{}
