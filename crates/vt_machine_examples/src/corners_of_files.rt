//! Worked examples: corners of files and tasks.
ghost use Rattle.std.specs.Prelude.{◌≡◌, [], codes, ◌++◌};
ghost use Rattle.vt_spec.specs.Machine.Run.{machine_text};
ghost use Rattle.vt_spec.specs.Language.Script.Version.{One};

/// Numbers, access and bytes of descriptors.
pub fn descriptors()
    ensures { machine_text One [] (codes "t write /f abc\nt open /f r\nt open /f w\nt open /f rw\nt close 1\nt open /f r\nt pwrite 0 0 z\n"
        ++ codes "t pwrite 2 1 zz9\nt pread 1 1 2\nt pread 1 9 2\nt pwrite 2 0 \\e\nt read /f\nt pwrite 2 5 q\n"
        ++ codes "t read /f\nt close 256\nt close 255\nt open /f r\nt unlink /f\nt pread 3 0 1\nt whiteout /w\n"
        ++ codes "t open /w r\nt open / r\n")
        ≡ codes "1 ok\n2 ok 0\n3 ok 1\n4 ok 2\n5 ok\n6 ok 1\n7 deny 9 EBADF S4\n8 ok\n9 ok zz\n10 ok \\e\n11 ok\n"
        ++ codes "12 ok azz9\n13 ok\n14 ok azz9\\x00q\n15 deny 22 EINVAL S1\n16 deny 9 EBADF S4\n17 ok 3\n18 ok\n"
        ++ codes "19 ok a\n20 ok\n21 deny 6 ENXIO E9\n22 deny 21 EISDIR E2\n" }
{}

/// Who may change owner and mode.
pub fn chown_and_chmod()
    ensures { machine_text One [] (codes "t write /f x\nt chown /f 5 5\nt fork 5 5 6,7 -\nt.1 chown /f - 6\nt.1 chown /f - 8\n"
        ++ codes "t.1 chown /f - -\nt.1 chmod /f 1755\nt.1 stat /f\nt fork 9 9 - CAP_FOWNER\nt.2 chmod /f 600\n"
        ++ codes "t.2 chown /f - 9\nt fork 0 0 - CAP_CHOWN,CAP_CHOWN\nt.3 chown /f 1 2\nt.3 chmod /f 644\n"
        ++ codes "t.3 fork 0 0 - *\nt.3 fork 0 0 - CAP_FOWNER\nt.3 fork 0 0 1 -\nt.3 umask 1777\nt.3 mkdir /d\n"
        ++ codes "t.3 stat /d\nt.3 setns t.9\nt.3 setns t\nt.3 chroot /\nt exit\nt.3 exit\nt ls /\n")
        ≡ codes "1 ok\n2 ok\n3 ok t.1\n4 ok\n5 deny 1 EPERM C2\n6 deny 22 EINVAL S1\n7 ok\n8 ok file 1755 5 6 1\n"
        ++ codes "9 ok t.2\n10 ok\n11 deny 1 EPERM C2\n12 ok t.3\n13 ok\n14 deny 1 EPERM C2\n15 ok t.3.1\n"
        ++ codes "16 deny 1 EPERM K1\n17 deny 1 EPERM K1\n18 ok\n19 ok\n20 ok dir 0000 0 0\n21 deny 3 ESRCH S2\n"
        ++ codes "22 deny 1 EPERM K1\n23 deny 1 EPERM K1\n24 ok\n25 ok\n26 deny 3 ESRCH S2\n" }
{}
