//! Worked examples: corners of mounts.
ghost use Rattle.std.specs.Prelude.{◌≡◌, [], codes, ◌++◌};
ghost use Rattle.vt_spec.specs.Machine.Run.{machine_text};
ghost use Rattle.vt_spec.specs.Language.Script.Version.{One};

/// `..` from a mount over the task's root goes on from its place and stays there.
pub fn over_the_root()
    ensures { machine_text One [] (codes "t mkdir /a\nt mount plain /\nt ls /\nt ls /.\nt ls /a/..\nt ls /a/../..\nt mkdir /a/../b\nt ls /a/..\n")
        ≡ codes "1 ok\n2 ok\n3 ok a\n4 ok a\n5 ok\n6 ok a\n7 ok\n8 ok b\n" }
{}

/// A source is the place reached, a destination the topmost mount over it.
pub fn sources_are_not_topmost()
    ensures { machine_text One [] (codes "t mkdir /a\nt mkdir /c\nt mkdir /a/u\nt chdir /a\nt mount plain /a\nt mkdir /a/o\nt bind . /c\n"
        ++ codes "t ls /c\nt rbind . /c\nt ls /c\nt mounts\nt move /c/. /a\nt mkdir /x\nt mkdir /y\nt move /x /y\n"
        ++ codes "t lazy /\nt umount /\n")
        ≡ codes "1 ok\n2 ok\n3 ok\n4 ok\n5 ok\n6 ok\n7 ok\n8 ok u\n9 ok\n10 ok o\n11 ok 5\n"
        ++ codes "11 1 - - plain:1 / rw private\n11 2 1 /a plain:2 / rw private\n11 3 1 /c plain:1 /a rw private\n"
        ++ codes "11 4 3 / plain:1 /a rw private\n11 5 4 / plain:2 / rw private\n12 ok\n13 ok\n14 ok\n"
        ++ codes "15 deny 40 ELOOP M6\n16 deny 22 EINVAL M10\n17 deny 16 EBUSY M8\n" }
{}

/// A namespace ends, and what a descriptor of another task is on stays.
pub fn what_a_namespace_leaves()
    ensures { machine_text One [] (codes "t mkdir /a\nt fork\nt.1 unshare\nt.1 mount plain /a\nt.1 write /a/f x\nt setns t.1\nt open /a/f rw\n"
        ++ codes "t.1 fork\nt.1 exit\nt.1.1 unshare\nt chdir /a\nt mounts\nt.1.1 umount /a\nt pwrite 0 1 y\nt read f\n"
        ++ codes "t setns t.1.1\nt mounts\nt pread 0 0 9\nt ls /a\n! sealed t\n! sealed t t.1.1\n")
        ≡ codes "1 ok\n2 ok t.1\n3 ok\n4 ok\n5 ok\n6 ok\n7 ok 0\n8 ok t.1.1\n9 ok\n10 ok\n11 ok\n12 ok 2\n"
        ++ codes "12 1 - - plain:1 / rw private\n12 2 1 /a plain:2 / rw private\n13 ok\n14 ok\n15 ok xy\n16 ok\n"
        ++ codes "17 ok 1\n17 1 - - plain:1 / rw private\n18 ok xy\n19 ok\n20 ok no\n21 ok yes\n" }
{}
