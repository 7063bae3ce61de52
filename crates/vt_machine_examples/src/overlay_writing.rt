//! Worked examples: overlay writing.
ghost use Rattle.std.specs.Prelude.{◌≡◌, [], codes, ◌++◌};
ghost use Rattle.vt_spec.specs.Machine.Run.{machine_text};
ghost use Rattle.vt_spec.specs.Language.Script.{Version};

/// A removed directory leaves a whiteout, a new one over it is opaque; the same is shown after
/// mounting again.
pub fn whiteout_opaque_mark_and_a_second_mounting()
    ensures { (version : Version) → machine_text version [] (codes "t mkdir /l\nt mkdir /l/d\nt write /l/d/f x\nt mkdir /u\nt mkdir /w\nt mkdir /m\n"
        ++ codes "t mount overlay /m lowerdir=/l,upperdir=/u,workdir=/w\nt rmdir /m/d\nt unlink /m/d/f\nt rmdir /m/d\n"
        ++ codes "t stat /u/d\nt mkdir /m/d 700\nt ls /m/d\nt stat /u/d\nt ls /l/d\nt umount /m\n"
        ++ codes "t mount overlay /m lowerdir=/l,upperdir=/u,workdir=/w\nt ls /m/d\n")
        ≡ codes "1 ok\n2 ok\n3 ok\n4 ok\n5 ok\n6 ok\n7 ok\n8 deny 39 ENOTEMPTY E4\n9 ok\n10 ok\n"
        ++ codes "11 ok white 0000 0 0\n12 ok\n13 ok\n14 ok dir 0700 0 0 opaque\n15 ok f\n16 ok\n17 ok\n18 ok\n" }
{}

/// A lower file with two names is copied under one; an earlier descriptor shows the copy.
pub fn copied_file_with_two_names()
    ensures { (version : Version) → machine_text version [] (codes "t mkdir /l\nt write /l/a old\nt link /l/a /l/b\nt mkdir /u\nt mkdir /w\nt mkdir /m\n"
        ++ codes "t mount overlay /m lowerdir=/l,upperdir=/u,workdir=/w\nt open /m/a r\nt write /m/a new\n"
        ++ codes "t pread 0 0 9\nt read /m/b\nt read /l/a\n")
        ≡ codes "1 ok\n2 ok\n3 ok\n4 ok\n5 ok\n6 ok\n7 ok\n8 ok 0\n9 ok\n10 ok new\n11 ok old\n12 ok old\n" }
{}

/// A copy whose owner the mounter cannot give is refused and leaves nothing.
pub fn mounter_who_cannot_give_the_owner()
    ensures { (version : Version) → machine_text version [] (codes "t mkdir /l\nt mkdir /l/d\nt chmod /l/d 777\nt write /l/d/f x\nt chmod /l/d/f 666\nt mkdir /u\n"
        ++ codes "t chown /u 5 5\nt mkdir /w\nt mkdir /m\nt fork 5 5 - CAP_SYS_ADMIN\n"
        ++ codes "t.1 mount overlay /m lowerdir=/l,upperdir=/u,workdir=/w\nt write /m/d/f y\nt ls /u\nt read /m/d/f\n")
        ≡ codes "1 ok\n2 ok\n3 ok\n4 ok\n5 ok\n6 ok\n7 ok\n8 ok\n9 ok\n10 ok t.1\n11 ok\n12 deny 1 EPERM B2\n13 ok\n14 ok x\n" }
{}

/// A rename copies and leaves a whiteout; layers that overlap, are in use or are named wrongly.
pub fn renames_and_refused_overlay_mounts()
    ensures { (version : Version) → machine_text version [] (codes "t mkdir /l\nt mkdir /l/d\nt write /l/f x\nt mkdir /u\nt mkdir /w\nt mkdir /m\nt mkdir /m2\n"
        ++ codes "t mkdir /k\nt mount overlay /m lowerdir=/l,upperdir=/u,workdir=/w\nt rename /m/d /m/e\n"
        ++ codes "t rename /m/f /m/g\nt ls /m\nt ls /u\nt stat /u/f\nt read /u/g\nt ls /l\nt whiteout /m/q\n"
        ++ codes "t mkdir /u/z\nt unlink /m/g\nt ls /u\nt mount overlay /m2 lowerdir=/u:/k\n"
        ++ codes "t mount overlay /m2 lowerdir=/l\nt mount overlay /m2 lowerdir=/l:/l\n"
        ++ codes "t mount overlay /m2 lowerdir=/u:/k,lowerdir=/l:/k,index=off\nt ls /m2\n")
        ≡ codes "1 ok\n2 ok\n3 ok\n4 ok\n5 ok\n6 ok\n7 ok\n8 ok\n9 ok\n10 deny 18 EXDEV O1\n11 ok\n12 ok d g\n"
        ++ codes "13 ok f g\n14 ok white 0000 0 0\n15 ok x\n16 ok d f\n17 deny 1 EPERM O4\n18 deny 16 EBUSY L1\n"
        ++ codes "19 ok\n20 ok f\n21 deny 16 EBUSY O3\n22 deny 22 EINVAL O2\n23 deny 40 ELOOP O5\n24 ok\n25 ok d f\n" }
{}
