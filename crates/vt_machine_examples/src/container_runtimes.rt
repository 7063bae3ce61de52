//! Worked examples: how container runtimes use propagation (`examples`, without the comments).
ghost use Rattle.std.specs.Prelude.{◌≡◌, [], codes, ◌++◌};
ghost use Rattle.vt_spec.specs.Machine.Run.{machine_text};
ghost use Rattle.vt_spec.specs.Language.Script.Version.{One};

/// The three modes of propagation of a volume in Kubernetes: `None`, `HostToContainer`, `Bidirectional`.
pub fn volumes_with_the_three_modes_of_propagation()
    ensures { machine_text One [] (codes "t mkdir /pod\nt mkdir /box\nt mkdir /box/volume\nt mount plain /pod\n"
        ++ codes "t mkdir /pod/disk\nt mkdir /pod/mine\nt rtype / shared\nt mounts\nt fork\nt fork\n"
        ++ codes "t fork\nt.1 unshare\nt.2 unshare\nt.3 unshare\n! peers\nt.1 rtype / slave\n"
        ++ codes "t.1 bind /pod /box/volume\nt.1 rtype /box/volume private\nt.2 rtype / slave\n"
        ++ codes "t.2 bind /pod /box/volume\nt.3 type / private\nt.3 bind /pod /box/volume\n! peers\n"
        ++ codes "t.1 chroot /box\nt.2 chroot /box\nt.3 chroot /box\nt mount plain /pod/disk\n"
        ++ codes "t write /pod/disk/data new\nt.1 ls /volume/disk\nt.2 read /volume/disk/data\n"
        ++ codes "t.3 read /volume/disk/data\nt.2 mount plain /volume/mine\nt ls /pod\nt mounts\n"
        ++ codes "t.2 umount /volume/mine\nt.3 mount plain /volume/mine\n"
        ++ codes "t.3 write /volume/mine/hello x\nt ls /pod/mine\nt.2 ls /volume/mine\n"
        ++ codes "t.1 ls /volume/mine\nt.2 mounts\nt.2 chdir /volume/disk\nt umount /pod/disk\n"
        ++ codes "t.2 chdir /\nt umount /pod/disk\nt.2 ls /volume/disk\nt.3 ls /volume/disk\n"
        ++ codes "t.3 exit\nt ls /pod/mine\n! peers\n")
        ≡ codes "1 ok\n2 ok\n3 ok\n4 ok\n5 ok\n6 ok\n7 ok\n8 ok 2\n8 1 - - plain:1 / rw shared:1\n"
        ++ codes "8 2 1 /pod plain:2 / rw shared:2\n9 ok t.1\n10 ok t.2\n11 ok t.3\n12 ok\n13 ok\n"
        ++ codes "14 ok\n15 ok 2\n15 1 - 1.1,2.1,3.1,4.1 -\n15 2 - 1.2,2.2,3.2,4.2 -\n16 ok\n17 ok\n"
        ++ codes "18 ok\n19 ok\n20 ok\n21 ok\n22 ok\n23 ok 2\n23 1 - 1.1 2.1,3.1\n"
        ++ codes "23 2 - 1.2,4.2,4.3 2.2,3.2,3.3\n24 ok\n25 ok\n26 ok\n27 ok\n28 ok\n29 ok\n"
        ++ codes "30 ok new\n31 ok new\n32 ok\n33 ok disk mine\n34 ok 3\n"
        ++ codes "34 1 - - plain:1 / rw shared:1\n34 2 1 /pod plain:2 / rw shared:2\n"
        ++ codes "34 3 2 /disk plain:3 / rw shared:3\n35 ok\n36 ok\n37 ok\n38 ok hello\n39 ok hello\n"
        ++ codes "40 ok\n41 ok 7\n41 1 - - plain:1 / rw slave:1\n41 2 1 /pod plain:2 / rw slave:2\n"
        ++ codes "41 3 1 /box/volume plain:2 / rw slave:2\n41 4 2 /disk plain:3 / rw slave:3\n"
        ++ codes "41 5 3 /disk plain:3 / rw slave:3\n41 6 2 /mine plain:4 / rw slave:4\n"
        ++ codes "41 7 3 /mine plain:4 / rw slave:4\n42 ok\n43 deny 16 EBUSY M8\n44 ok\n45 ok\n46 ok\n"
        ++ codes "47 ok\n48 ok\n49 ok hello\n50 ok 3\n50 1 - 1.1 2.1,3.1\n50 2 - 1.2 2.2,3.2,3.3\n"
        ++ codes "50 3 - 1.3 2.4,3.4,3.5\n" }
{}

/// A container with a volume whose mounts are private (`rprivate`), as Docker binds one.
pub fn a_container_with_a_private_volume()
    ensures { machine_text One [] (codes "t mkdir /data\nt mount plain /data\nt mkdir /data/disk\nt mkdir /data/late\n"
        ++ codes "t mount plain /data/disk\nt write /data/disk/f content\nt mkdir /box\n"
        ++ codes "t mkdir /box/volume\nt rtype / shared\nt fork\nt.1 unshare\nt.1 rtype / slave\n"
        ++ codes "t.1 rbind /data /box/volume\nt.1 mounts\nt.1 rtype /box/volume private\nt.1 mounts\n"
        ++ codes "t mount plain /data/late\nt write /data/late/g x\nt.1 ls /data/late\n"
        ++ codes "t.1 ls /box/volume/late\nt umount /data/disk\nt.1 ls /data/disk\n"
        ++ codes "t.1 read /box/volume/disk/f\nt.1 umount /box/volume/disk\nt.1 ls /box/volume/disk\n"
        ++ codes "! peers\n")
        ≡ codes "1 ok\n2 ok\n3 ok\n4 ok\n5 ok\n6 ok\n7 ok\n8 ok\n9 ok\n10 ok t.1\n11 ok\n12 ok\n13 ok\n"
        ++ codes "14 ok 5\n14 1 - - plain:1 / rw slave:1\n14 2 1 /data plain:2 / rw slave:2\n"
        ++ codes "14 3 2 /disk plain:3 / rw slave:3\n14 4 1 /box/volume plain:2 / rw slave:2\n"
        ++ codes "14 5 4 /disk plain:3 / rw slave:3\n15 ok\n16 ok 5\n16 1 - - plain:1 / rw slave:1\n"
        ++ codes "16 2 1 /data plain:2 / rw slave:2\n16 3 2 /disk plain:3 / rw slave:3\n"
        ++ codes "16 4 1 /box/volume plain:2 / rw private\n16 5 4 /disk plain:3 / rw private\n17 ok\n"
        ++ codes "18 ok\n19 ok g\n20 ok\n21 ok\n22 ok\n23 ok content\n24 ok\n25 ok\n26 ok 3\n"
        ++ codes "26 1 - 1.1 2.1\n26 2 - 1.2 2.2\n26 3 - 1.3 2.4\n" }
{}

/// A container whose mounts are slaves (`rslave`), as runc begins.
pub fn a_container_with_a_slave_root()
    ensures { machine_text One [] (codes "t mkdir /media\nt mkdir /media/disk\nt mkdir /root\nt mount plain /media/disk\n"
        ++ codes "t write /media/disk/f content\nt rtype / shared\nt fork\nt.1 unshare\n"
        ++ codes "t.1 rtype / slave\n! peers\nt.1 mount plain /root\nt.1 mkdir /root/proc\n"
        ++ codes "t.1 mount plain /root/proc\nt.1 mounts\nt ls /root\nt mkdir /media/second\n"
        ++ codes "t mount plain /media/second\nt.1 ls /media\nt.1 mounts\nt umount /media/second\n"
        ++ codes "t umount /media/disk\nt.1 mounts\nt.1 rtype / private\nt mount plain /media/disk\n"
        ++ codes "t.1 ls /media/disk\nt.1 mounts\n! peers\nt fork\nt.2 unshare\nt.2 rtype / slave\n"
        ++ codes "t.2 type / shared\nt.2 fork\nt.2.1 unshare\nt mount plain /media/second\nt.2 mounts\n"
        ++ codes "t.2.1 mounts\n! peers\n")
        ≡ codes "1 ok\n2 ok\n3 ok\n4 ok\n5 ok\n6 ok\n7 ok t.1\n8 ok\n9 ok\n10 ok 2\n10 1 - 1.1 2.1\n"
        ++ codes "10 2 - 1.2 2.2\n11 ok\n12 ok\n13 ok\n14 ok 4\n14 1 - - plain:1 / rw slave:1\n"
        ++ codes "14 2 1 /media/disk plain:2 / rw slave:2\n14 3 1 /root plain:3 / rw private\n"
        ++ codes "14 4 3 /proc plain:4 / rw private\n15 ok\n16 ok\n17 ok\n18 ok disk second\n19 ok 5\n"
        ++ codes "19 1 - - plain:1 / rw slave:1\n19 2 1 /media/disk plain:2 / rw slave:2\n"
        ++ codes "19 3 1 /root plain:3 / rw private\n19 4 3 /proc plain:4 / rw private\n"
        ++ codes "19 5 1 /media/second plain:5 / rw slave:3\n20 ok\n21 ok\n22 ok 3\n"
        ++ codes "22 1 - - plain:1 / rw slave:1\n22 2 1 /root plain:2 / rw private\n"
        ++ codes "22 3 2 /proc plain:3 / rw private\n23 ok\n24 ok\n25 ok\n26 ok 3\n"
        ++ codes "26 1 - - plain:1 / rw private\n26 2 1 /root plain:2 / rw private\n"
        ++ codes "26 3 2 /proc plain:3 / rw private\n27 ok 2\n27 1 - 1.1 -\n27 2 - 1.2 -\n28 ok t.2\n"
        ++ codes "29 ok\n30 ok\n31 ok\n32 ok t.2.1\n33 ok\n34 ok\n35 ok 3\n"
        ++ codes "35 1 - - plain:1 / rw shared:1,slave:2\n35 2 1 /media/disk plain:2 / rw slave:3\n"
        ++ codes "35 3 1 /media/second plain:3 / rw shared:4,slave:5\n36 ok 3\n"
        ++ codes "36 1 - - plain:1 / rw shared:1,slave:2\n36 2 1 /media/disk plain:2 / rw slave:3\n"
        ++ codes "36 3 1 /media/second plain:3 / rw shared:4,slave:5\n37 ok 5\n37 1 - 1.1 -\n"
        ++ codes "37 2 - 1.2 3.2,4.2\n37 3 - 1.3 -\n37 4 1 3.1,4.1 -\n37 5 3 3.3,4.3 -\n" }
{}
