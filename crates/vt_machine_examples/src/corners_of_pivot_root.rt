//! Worked examples: corners of pivot_root.
ghost use Rattle.std.specs.Prelude.{◌≡◌, [], codes, ◌++◌};
ghost use Rattle.vt_spec.specs.Machine.Run.{machine_text};
ghost use Rattle.vt_spec.specs.Language.Script.Version.{Two};

/// Tasks of the namespace get the new root, a changed root does not.
pub fn pivot_of_a_task_elsewhere()
    ensures { machine_text Two [] (codes "t mkdir /n\nt mount plain /n\nt mkdir /n/old\nt mkdir /n/new\nt mkdir /r\nt fork\nt fork\n"
        ++ codes "t.1 chdir /n/new\nt.2 chroot /r\nt pivot_root /n/new /n/new\nt pivot_root / /n\nt.2 pivot_root / /\n"
        ++ codes "t pivot_root /n /r\nt pivot_root /n /n/old\nt.1 ls /\nt.1 ls .\nt.1 ls ..\nt.2 ls /\nt umount /old\n"
        ++ codes "t.2 exit\nt umount /old\nt ls /old\n")
        ≡ codes "1 ok\n2 ok\n3 ok\n4 ok\n5 ok\n6 ok t.1\n7 ok t.2\n8 ok\n9 ok\n10 deny 22 EINVAL M7\n"
        ++ codes "11 deny 16 EBUSY M11\n12 deny 22 EINVAL M7\n13 deny 16 EBUSY M11\n14 ok\n15 ok new old\n16 ok\n"
        ++ codes "17 ok new old\n18 ok\n19 deny 16 EBUSY M8\n20 ok\n21 ok\n22 ok\n" }
{}
