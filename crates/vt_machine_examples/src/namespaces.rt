//! Worked examples: namespaces.
ghost use Rattle.std.specs.Prelude.{◌≡◌, [], codes, ◌++◌};
ghost use Rattle.vt_spec.specs.Machine.Run.{machine_text};
ghost use Rattle.vt_spec.specs.Language.Script.{Version};

/// A mount in one namespace alone; entering it; an unbindable mount.
pub fn two_namespaces()
    ensures { (version : Version) → machine_text version [] (codes "t mkdir /a\nt fork\nt.1 unshare\nt.1 mount plain /a\nt.1 mkdir /a/x\nt ls /a\nt setns t.1\nt ls /a\n"
        ++ codes "t.1 type /a unbindable\nt mkdir /b\nt bind /a /b\nt rbind / /b\nt ls /b/a\nt.1 exit\nt mounts\n")
        ≡ codes "1 ok\n2 ok t.1\n3 ok\n4 ok\n5 ok\n6 ok\n7 ok\n8 ok x\n9 ok\n10 ok\n11 deny 22 EINVAL M3\n12 ok\n"
        ++ codes "13 ok\n14 ok\n15 ok 3\n15 1 - - plain:1 / rw private\n15 2 1 /a plain:2 / rw unbindable\n"
        ++ codes "15 3 1 /b plain:1 / rw private\n" }
{}

/// A directory that is a mount point elsewhere is removed; .. from a removed working directory.
pub fn mount_point_in_another_namespace()
    ensures { (version : Version) → machine_text version [] (codes "t mkdir /a\nt fork\nt.1 unshare\nt.1 mount plain /a\nt.1 rmdir /a\nt chdir /a\nt rmdir /a\nt ls ..\n"
        ++ codes "t mkdir x\nt ls .\nt.1 ls /a\n")
        ≡ codes "1 ok\n2 ok t.1\n3 ok\n4 ok\n5 deny 16 EBUSY P1\n6 ok\n7 ok\n8 deny 2 ENOENT W8\n9 deny 2 ENOENT W8\n"
        ++ codes "10 ok\n11 deny 2 ENOENT W6\n" }
{}
