//! Worked examples: script 2.
ghost use Rattle.std.specs.Prelude.{◌≡◌, [], codes, ◌++◌};
ghost use Rattle.vt_spec.specs.Machine.Run.{machine_text};
ghost use Rattle.vt_spec.specs.Language.Script.Version.{Two};

/// Links on a mount with nosymfollow are not followed; binds keep the flag.
pub fn nosymfollow()
    ensures { machine_text Two [] (codes "t mkdir /a\nt mount plain /a rw,nosymfollow\nt write /a/f x\nt symlink f /a/l\nt read /a/l\n"
        ++ codes "t readlink /a/l\nt lstat /a/l\nt write /a/l y\nt symlink /a/f /k\nt read /k\nt mkdir /b\n"
        ++ codes "t bind /a /b\nt mounts\nt remount /b ro,noexec\nt read /b/l\n")
        ≡ codes "1 ok\n2 ok\n3 ok\n4 ok\n5 deny 40 ELOOP W9\n6 ok f\n7 ok link 0777 0 0 1\n8 deny 40 ELOOP W9\n9 ok\n"
        ++ codes "10 ok x\n11 ok\n12 ok\n13 ok 3\n13 1 - - plain:1 / rw private\n"
        ++ codes "13 2 1 /a plain:2 / rw,nosymfollow private\n13 3 1 /b plain:2 / rw,nosymfollow private\n14 ok\n"
        ++ codes "15 ok x\n" }
{}
