//! Worked examples: corners of overlays.
ghost use Rattle.std.specs.Prelude.{◌≡◌, [], codes, ◌++◌, decimal};
ghost use Rattle.std.specs.List.{flat_map, range_with_len};
ghost use Rattle.vt_spec.specs.Machine.Run.{machine_text};
ghost use Rattle.vt_spec.specs.Language.Script.Version.{One};

/// Changes of lower objects through an overlay.
pub fn a_copied_file_through_a_link()
    ensures { machine_text One [] (codes "t mkdir /l\nt mkdir /l/d\nt write /l/d/f abc\nt chmod /l/d 711\nt symlink t /l/d/k\nt mkdir /u\n"
        ++ codes "t mkdir /w\nt mkdir /m\nt mount overlay /m lowerdir=/l,upperdir=/u,workdir=/w\nt chmod /m/d/f 600\n"
        ++ codes "t stat /u/d\nt stat /u/d/f\nt stat /l/d/f\nt link /m/d/k /m/k2\nt ls /u\nt ls /u/d\n"
        ++ codes "t chown /m/d/f 3 4\nt open /m/d/f w\nt pwrite 0 1 ZZZ\nt read /u/d/f\nt unlink /m/d/k\n"
        ++ codes "t stat /u/d/k\nt unlink /m/k2\nt ls /u\nt mkdir /m/n\nt mkdir /m/n/o\nt rename /m/n /m/p\nt ls /u\n"
        ++ codes "t rename /m/p /m/d\nt unlink /m/d/f\nt pread 0 0 9\nt rename /m/d /m/q\nt rmdir /m/p/o\n"
        ++ codes "t rename /m/p /m/d\nt stat /u/d\nt ls /u\nt ls /m\nt ls /m/d\nt rename /m/d /m/z\nt stat /u/d\n"
        ++ codes "t stat /u/z\nt mkdir /u/e\nt rmdir /u\nt rename /w /ww\nt opaque /m/z no\nt opaque /u/z no\n"
        ++ codes "t umount /m\nt close 0\nt umount /m\nt opaque /u/z no\nt stat /u/z\n")
        ≡ codes "1 ok\n2 ok\n3 ok\n4 ok\n5 ok\n6 ok\n7 ok\n8 ok\n9 ok\n10 ok\n11 ok dir 0711 0 0\n"
        ++ codes "12 ok file 0600 0 0 3\n13 ok file 0644 0 0 3\n14 ok\n15 ok d k2\n16 ok f k\n17 ok\n18 ok 0\n19 ok\n"
        ++ codes "20 ok aZZZ\n21 ok\n22 ok white 0000 0 0\n23 ok\n24 ok d\n25 ok\n26 ok\n27 ok\n28 ok d p\n"
        ++ codes "29 deny 39 ENOTEMPTY E4\n30 ok\n31 deny 9 EBADF S4\n32 deny 18 EXDEV O1\n33 ok\n34 ok\n"
        ++ codes "35 ok dir 0755 0 0 opaque\n36 ok d\n37 ok d\n38 ok\n39 ok\n40 ok white 0000 0 0\n"
        ++ codes "41 ok dir 0755 0 0 opaque\n42 deny 16 EBUSY L1\n43 deny 39 ENOTEMPTY E4\n44 deny 16 EBUSY L1\n"
        ++ codes "45 deny 1 EPERM O4\n46 deny 16 EBUSY L1\n47 deny 16 EBUSY M8\n48 ok\n49 ok\n50 ok\n"
        ++ codes "51 ok dir 0755 0 0\n" }
{}

/// A removed lower directory is changed through a working directory.
pub fn removed_while_it_lay_below()
    ensures { machine_text One [] (codes "t mkdir /l\nt mkdir /l/d\nt write /l/f abc\nt mkdir /u\nt mkdir /w\nt mkdir /m\n"
        ++ codes "t mount overlay /m lowerdir=/l,upperdir=/u,workdir=/w\nt chdir /m/d\nt rmdir /m/d\nt chmod . 700\n"
        ++ codes "t stat .\nt ls /u\nt stat /u/d\nt stat /l/d\nt open /m/f r\nt unlink /m/f\nt write /m/f new\n"
        ++ codes "t pread 0 0 9\nt read /m/f\nt umount /m\nt lazy /m\nt ls /m\nt stat .\nt mkdir /u/x\nt chdir /\n"
        ++ codes "t close 0\nt mkdir /u/x\n")
        ≡ codes "1 ok\n2 ok\n3 ok\n4 ok\n5 ok\n6 ok\n7 ok\n8 ok\n9 ok\n10 ok\n11 ok dir 0700 0 0\n12 ok d\n"
        ++ codes "13 ok white 0000 0 0\n14 ok dir 0755 0 0\n15 ok 0\n16 ok\n17 ok\n18 ok abc\n19 ok new\n"
        ++ codes "20 deny 16 EBUSY M8\n21 ok\n22 ok\n23 ok dir 0700 0 0\n24 deny 16 EBUSY L1\n25 ok\n26 ok\n27 ok\n" }
{}

/// Write and search are asked of the mounter as one request, from the nearest upper directory
/// down.
pub fn rights_of_the_mounter_on_parents()
    ensures { machine_text One [] (codes "t mkdir /l\nt mkdir /l/a\nt mkdir /l/a/b\nt chmod /l/a 777\nt chmod /l/a/b 777\nt mkdir /u\n"
        ++ codes "t mkdir /w\nt chmod /u 777\nt mkdir /m\nt fork 5 5 - CAP_SYS_ADMIN,CAP_CHOWN\n"
        ++ codes "t.1 mount overlay /m lowerdir=/l,upperdir=/u,workdir=/w\nt mkdir /m/a/b/c\nt stat /u/a/b/c\n"
        ++ codes "t ls /u/a\nt chmod /m 755\nt mkdir /m/a/d\nt mkdir /m/e\n")
        ≡ codes "1 ok\n2 ok\n3 ok\n4 ok\n5 ok\n6 ok\n7 ok\n8 ok\n9 ok\n10 ok t.1\n11 ok\n12 ok\n13 ok dir 0755 0 0\n"
        ++ codes "14 ok b\n15 ok\n16 ok\n17 deny 13 EACCES B1\n" }
{}

/// Options and layers that are refused.
pub fn overlay_options()
    ensures { machine_text One [] (codes "t mkdir /a\nt mkdir /a/s\nt mkdir /b\nt mkdir /c\nt mkdir /d\nt mkdir /m\n"
        ++ codes "t mount overlay /m lowerdir=/a:/a/s\nt mount overlay /m lowerdir=/a,upperdir=/b\n"
        ++ codes "t mount overlay /m lowerdir=/a,upperdir=/b,workdir=/b\n"
        ++ codes "t mount overlay /m lowerdir=/a,upperdir=/a/s,workdir=/b\n"
        ++ codes "t mount overlay /m lowerdir=/a:/b,workdir=/nope ro\n"
        ++ codes "t mount overlay /c lowerdir=/m,upperdir=/d,workdir=/d\n"
        ++ codes "t mount overlay /c lowerdir=/d,upperdir=/a,workdir=/d\n"
        ++ codes "t mount overlay /c lowerdir=/d,upperdir=/a,workdir=/c\nt write /a/f x\nt write /a/s/f x\n"
        ++ codes "t rename /a /q\nt chmod /a 700\nt rename /b /m\nt write /m/f x\nt remount /m rw\nt write /m/f x\n"
        ++ codes "t mkdir /m/s\nt whiteout /m/w\nt mounts\nt link /a/s /m/s\nt link /c /m/s2\n")
        ≡ codes "1 ok\n2 ok\n3 ok\n4 ok\n5 ok\n6 ok\n7 deny 40 ELOOP O5\n8 deny 22 EINVAL O2\n9 deny 22 EINVAL O2\n"
        ++ codes "10 deny 40 ELOOP O5\n11 ok\n12 deny 22 EINVAL O2\n13 deny 16 EBUSY O3\n14 deny 16 EBUSY O3\n"
        ++ codes "15 deny 16 EBUSY L1\n16 deny 16 EBUSY L1\n17 deny 16 EBUSY L1\n18 deny 16 EBUSY L1\n"
        ++ codes "19 deny 16 EBUSY L1\n20 deny 30 EROFS F1\n21 ok\n22 deny 30 EROFS F2\n23 deny 17 EEXIST E1\n"
        ++ codes "24 deny 30 EROFS F2\n25 ok 2\n25 1 - - plain:1 / rw private\n25 2 1 /m overlay:2 / rw private\n"
        ++ codes "26 deny 17 EEXIST E1\n27 deny 1 EPERM E7\n" }
{}

/// An overlay that is made anew over what another one left shows the same tree.
pub fn the_same_after_mounting_again()
    ensures { machine_text One [] (codes "t mkdir /l\nt mkdir /l/d\nt mkdir /l/e\nt write /l/d/f 1\nt write /l/d/g 2\nt write /l/h 3\n"
        ++ codes "t symlink h /l/s\nt mkdir /u\nt mkdir /w\nt mkdir /m\n"
        ++ codes "t mount overlay /m lowerdir=/l,upperdir=/u,workdir=/w\nt unlink /m/d/f\nt rename /m/h /m/d/h2\n"
        ++ codes "t mkdir /m/d/n\nt link /m/d/g /m/g2\nt rmdir /m/e\nt mkdir /m/e 700\nt write /m/e/z 1\n"
        ++ codes "t rename /m/s /m/e/s\nt write /m/g2 new\nt read /m/d/g\nt ls /m\nt ls /m/d\nt ls /m/e\nt ls /u\n"
        ++ codes "t ls /u/d\nt stat /u/e\nt stat /u/d/n\nt stat /u/s\nt umount /m\n"
        ++ codes "t mount overlay /m lowerdir=/l,upperdir=/u,workdir=/w\nt ls /m\nt ls /m/d\nt ls /m/e\nt stat /m/e\n"
        ++ codes "t lstat /m/e/s\nt write /m/g2 newer\nt read /m/d/g\nt read /m/d/h2\nt ls /l\nt ls /l/d\n"
        ++ codes "t read /l/d/g\n")
        ≡ flat_map (λ n. decimal n ++ codes " ok\n") (range_with_len 1 20)
        ++ codes "21 ok new\n22 ok d e g2\n23 ok g h2 n\n24 ok s z\n25 ok d e g2 h s\n26 ok f g h2 n\n"
        ++ codes "27 ok dir 0700 0 0 opaque\n28 ok dir 0755 0 0\n29 ok white 0000 0 0\n30 ok\n31 ok\n32 ok d e g2\n"
        ++ codes "33 ok g h2 n\n34 ok s z\n35 ok dir 0700 0 0\n36 ok link 0777 0 0 1\n37 ok\n38 ok newer\n39 ok 3\n"
        ++ codes "40 ok d e h s\n41 ok f g\n42 ok 2\n" }
{}

/// A file in a middle layer decides on marks, whiteouts and renames.
pub fn a_middle_layer_cuts()
    ensures { machine_text One [] (codes "t mkdir /l1\nt mkdir /l2\nt mkdir /l3\nt mkdir /l1/a\nt write /l2/a x\nt mkdir /l3/a\n"
        ++ codes "t mkdir /l3/a/x\nt write /l1/b y\nt mkdir /l2/b\nt mkdir /u\nt mkdir /w\nt mkdir /m\n"
        ++ codes "t mount overlay /m lowerdir=/l1:/l2:/l3,upperdir=/u,workdir=/w\nt ls /m/a\nt mkdir /m/a/x\n"
        ++ codes "t stat /u/a/x\nt rename /m/a /m/q\nt unlink /m/b\nt mkdir /m/b\nt stat /u/b\nt rename /m/b /m/c\n"
        ++ codes "t stat /u/b\nt stat /u/c\nt rmdir /m/a\nt rmdir /m/a/x\nt ls /u/a\nt rmdir /m/a\nt stat /u/a\n"
        ++ codes "t write /m/a z\nt ls /u\nt unlink /m/a\nt stat /u/a\n")
        ≡ flat_map (λ n. decimal n ++ codes " ok\n") (range_with_len 1 15)
        ++ codes "16 ok dir 0755 0 0\n17 deny 18 EXDEV O1\n18 ok\n19 ok\n20 ok dir 0755 0 0\n21 ok\n"
        ++ codes "22 ok white 0000 0 0\n23 ok dir 0755 0 0\n24 deny 39 ENOTEMPTY E4\n25 ok\n26 ok\n27 ok\n"
        ++ codes "28 ok white 0000 0 0\n29 ok\n30 ok a b c\n31 ok\n32 ok white 0000 0 0\n" }
{}

/// A file of a layer is locked by whatever name it is reached.
pub fn a_second_name_outside_a_layer()
    ensures { machine_text One [] (codes "t mkdir /l\nt mkdir /k\nt mkdir /m\nt write /l/f x\nt link /l/f /out\nt open /out w\n"
        ++ codes "t mount overlay /m lowerdir=/l:/k\nt write /out y\nt unlink /out\nt rename /out /q\n"
        ++ codes "t chmod /out 600\nt pwrite 0 0 y\nt pwrite 0 0 \\e\nt read /m/f\nt umount /m\nt pwrite 0 0 y\n"
        ++ codes "t read /l/f\n")
        ≡ codes "1 ok\n2 ok\n3 ok\n4 ok\n5 ok\n6 ok 0\n7 ok\n8 deny 16 EBUSY L1\n9 deny 16 EBUSY L1\n"
        ++ codes "10 deny 16 EBUSY L1\n11 deny 16 EBUSY L1\n12 deny 16 EBUSY L1\n13 deny 16 EBUSY L1\n14 ok x\n15 ok\n"
        ++ codes "16 ok\n17 ok y\n" }
{}

/// An open file of an overlay that has no name there any more counts as under the upper directory, as long as it is
/// open: a directory that has another name of it overlaps that one (of one mount O2, else O3), and it is locked (L1).
pub fn an_unlinked_object_counts_as_under_its_upper_directory()
    ensures { machine_text One [] (codes "t mkdir /l\nt mkdir /u\nt mkdir /w\nt mkdir /z\nt mkdir /y\nt mkdir /m\nt write /u/f x\n"
        ++ codes "t link /u/f /z/f\nt mount overlay /m lowerdir=/l,upperdir=/u,workdir=/w\nt open /m/f r\nt unlink /m/f\n"
        ++ codes "t mount overlay /m lowerdir=/l,upperdir=/u,workdir=/z\nt mount overlay /m lowerdir=/l,upperdir=/z,workdir=/y\n"
        ++ codes "t mount overlay /m lowerdir=/z,upperdir=/y,workdir=/y\nt mount overlay /m lowerdir=/z:/y\nt write /z/f y\n"
        ++ codes "t close 0\nt write /z/f y\nt mount overlay /m lowerdir=/l,upperdir=/u,workdir=/z\n")
        ≡ codes "1 ok\n2 ok\n3 ok\n4 ok\n5 ok\n6 ok\n7 ok\n8 ok\n9 ok\n10 ok 0\n11 ok\n12 deny 22 EINVAL O2\n"
        ++ codes "13 deny 16 EBUSY O3\n14 deny 22 EINVAL O2\n15 deny 16 EBUSY O3\n16 deny 16 EBUSY L1\n17 ok\n18 ok\n"
        ++ codes "19 deny 16 EBUSY O3\n" }
{}

/// A directory of an overlay is a mount point where its directory in the upper layer is one.
pub fn mount_points_of_an_upper_directory()
    ensures { machine_text One [] (codes "t mkdir /l\nt mkdir /u\nt mkdir /w\nt mkdir /m\n"
        ++ codes "t mount overlay /m lowerdir=/l,upperdir=/u,workdir=/w\nt mkdir /m/p\nt mount plain /u/p\n"
        ++ codes "t rmdir /m/p\nt rename /m/p /m/q\nt umount /u/p\nt fork\nt.1 unshare\nt.1 mount plain /u/p\n"
        ++ codes "t.1 mount plain /m/p\nt.1 mounts\nt rename /m/p /m/q\nt rmdir /m/p\nt.1 mounts\n")
        ≡ codes "1 ok\n2 ok\n3 ok\n4 ok\n5 ok\n6 ok\n7 ok\n8 deny 16 EBUSY P1\n9 deny 16 EBUSY P1\n10 ok\n11 ok t.1\n"
        ++ codes "12 ok\n13 ok\n14 ok\n15 ok 4\n15 1 - - plain:1 / rw private\n15 2 1 /m overlay:2 / rw private\n"
        ++ codes "15 3 1 /u/p plain:3 / rw private\n15 4 2 /p plain:4 / rw private\n16 deny 16 EBUSY P1\n17 ok\n"
        ++ codes "18 ok 2\n18 1 - - plain:1 / rw private\n18 2 1 /m overlay:2 / rw private\n" }
{}

/// A name that only the second lower layer has leaves a whiteout, so it does not show after mounting again.
pub fn a_name_of_a_second_lower_layer()
    ensures { machine_text One [] (codes "t mkdir /l1\nt mkdir /l2\nt write /l2/a x\nt mkdir /u\nt mkdir /w\nt mkdir /m\n"
        ++ codes "t mount overlay /m lowerdir=/l1:/l2,upperdir=/u,workdir=/w\nt unlink /m/a\nt ls /m\nt stat /u/a\n"
        ++ codes "t umount /m\nt mount overlay /m lowerdir=/l1:/l2,upperdir=/u,workdir=/w\nt ls /m\n")
        ≡ codes "1 ok\n2 ok\n3 ok\n4 ok\n5 ok\n6 ok\n7 ok\n8 ok\n9 ok\n10 ok white 0000 0 0\n11 ok\n12 ok\n13 ok\n" }
{}

/// A directory that is copied up has no mark: after mounting again the names in it show that were not copied.
pub fn a_copied_directory_hides_nothing()
    ensures { machine_text One [] (codes "t mkdir /l\nt mkdir /l/d\nt write /l/d/f x\nt write /l/d/g y\nt mkdir /u\nt mkdir /w\nt mkdir /m\n"
        ++ codes "t mount overlay /m lowerdir=/l,upperdir=/u,workdir=/w\nt chmod /m/d/f 600\nt ls /m/d\n"
        ++ codes "t stat /u/d\nt ls /u/d\nt umount /m\nt mount overlay /m lowerdir=/l,upperdir=/u,workdir=/w\n"
        ++ codes "t ls /m/d\n")
        ≡ codes "1 ok\n2 ok\n3 ok\n4 ok\n5 ok\n6 ok\n7 ok\n8 ok\n9 ok\n10 ok f g\n11 ok dir 0755 0 0\n12 ok f\n"
        ++ codes "13 ok\n14 ok\n15 ok f g\n" }
{}
