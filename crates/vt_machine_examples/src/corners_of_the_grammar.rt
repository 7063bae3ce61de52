//! Worked examples: corners of the grammar.
ghost use Rattle.std.specs.Prelude.{◌≡◌, [], codes, ◌++◌};
ghost use Rattle.vt_spec.specs.Machine.Run.{machine_text};
ghost use Rattle.vt_spec.specs.Language.Script.Version.{One};

/// Tokens by their decoded text.
pub fn tokens()
    ensures { machine_text One [] (codes "t \\x6cs /\n t  ls   /  \n#\n# a comment\n\nt ls / x\nt pread 000 00 001\nt.01 ls /\nt.65 ls /\n"
        ++ codes "t.64 ls /\nt chmod / 00755\nt chmod / 2000\nt write /a\\x00b x\n! peers\n! sealed t t\n! sealed\n"
        ++ codes "t mount overlay / lowerdir\nt mount overlay / lowerdir=\nt mount overlay / lowerdir=/x,foo\n"
        ++ codes "t mount overlay / lowerdir=/x\nt mount overlay / upperdir=/,workdir=/\n"
        ++ codes "t mount overlay / lowerdir=/:/,workdir=/nope\n")
        ≡ codes "1 ok\n2 ok\n6 deny 22 EINVAL S1\n7 deny 9 EBADF S4\n8 deny 22 EINVAL S1\n9 deny 22 EINVAL S1\n"
        ++ codes "10 deny 3 ESRCH S2\n11 deny 22 EINVAL S1\n12 deny 22 EINVAL S1\n13 deny 22 EINVAL S1\n14 ok 0\n"
        ++ codes "15 ok yes\n16 deny 22 EINVAL S1\n17 deny 22 EINVAL O2\n18 deny 2 ENOENT W1\n19 deny 22 EINVAL O2\n"
        ++ codes "20 deny 2 ENOENT W6\n21 deny 22 EINVAL O2\n22 deny 40 ELOOP O5\n" }
{}
