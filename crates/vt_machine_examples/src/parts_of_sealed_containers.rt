//! Worked examples: a sealed container's calls answer alike in the world and in its part of it.
ghost use Rattle.std.specs.Prelude.{◌≡◌, ◌∷◌, [], codes, nat_eq, ◌++◌};
ghost use Rattle.vt_spec.specs.Machine.Run.{first_world, text_from, world_from};
ghost use Rattle.vt_spec.specs.Language.Script.Version.{One};
ghost use Rattle.vt_spec.specs.Language.Script.{lines_of, whole};
ghost use Rattle.vt_spec.specs.Machine.Sealed.{part_of};

/// A container over a locked image, beside the task that made it.
pub fn a_container_in_the_world()
    ensures { text_from (whole One) (world_from (whole One) first_world 1 (lines_of (codes "t mkdir /n\nt mkdir /m\nt write /f img\nt fork\nt.1 unshare\nt.1 mount plain /n\nt.1 mkdir /n/u\n"
        ++ codes "t.1 mkdir /n/w\nt.1 mount overlay /m lowerdir=/,upperdir=/n/u,workdir=/n/w\nt.1 open /m/f r\n"))) 11 (lines_of (codes "t.1 write /m/f own\nt.1 read /m/f\nt.1 pread 0 0 9\nt.1 ls /m\nt.1 mounts\nt.1 fork\n"
        ++ codes "t.1.1 mkdir /m/k\nt.1 unlink /m/f\nt.1 ls /m\nt.1 ls /n/u\nt.1 write /x y\nt.1 ls /n/..\n"
        ++ codes "t.1 umount /m\nt.1 mount plain /m/k ro\nt.1 write /m/k/z y\nt.1.1 exit\n! sealed t.1\n")) [] ≡ codes "11 ok\n12 ok own\n13 ok own\n14 ok f m n\n15 ok 3\n15 1 - - plain:1 / rw private\n"
        ++ codes "15 2 1 /n plain:2 / rw private\n15 3 1 /m overlay:3 / rw private\n16 ok t.1.1\n17 ok\n18 ok\n"
        ++ codes "19 ok k m n\n20 ok f k\n21 deny 16 EBUSY L1\n22 ok f m n\n23 deny 16 EBUSY M8\n24 ok\n"
        ++ codes "25 deny 30 EROFS F1\n26 ok\n27 ok yes\n" }
{}

/// The same container in its part of the world.
pub fn a_container_in_its_part()
    ensures { text_from (whole One) (part_of nat_eq (world_from (whole One) first_world 1 (lines_of (codes "t mkdir /n\nt mkdir /m\nt write /f img\nt fork\nt.1 unshare\nt.1 mount plain /n\nt.1 mkdir /n/u\n"
        ++ codes "t.1 mkdir /n/w\nt.1 mount overlay /m lowerdir=/,upperdir=/n/u,workdir=/n/w\nt.1 open /m/f r\n"))) ((1 ∷ []) ∷ [])) 11 (lines_of (codes "t.1 write /m/f own\nt.1 read /m/f\nt.1 pread 0 0 9\nt.1 ls /m\nt.1 mounts\nt.1 fork\n"
        ++ codes "t.1.1 mkdir /m/k\nt.1 unlink /m/f\nt.1 ls /m\nt.1 ls /n/u\nt.1 write /x y\nt.1 ls /n/..\n"
        ++ codes "t.1 umount /m\nt.1 mount plain /m/k ro\nt.1 write /m/k/z y\nt.1.1 exit\n! sealed t.1\n")) [] ≡ codes "11 ok\n12 ok own\n13 ok own\n14 ok f m n\n15 ok 3\n15 1 - - plain:1 / rw private\n"
        ++ codes "15 2 1 /n plain:2 / rw private\n15 3 1 /m overlay:3 / rw private\n16 ok t.1.1\n17 ok\n18 ok\n"
        ++ codes "19 ok k m n\n20 ok f k\n21 deny 16 EBUSY L1\n22 ok f m n\n23 deny 16 EBUSY M8\n24 ok\n"
        ++ codes "25 deny 30 EROFS F1\n26 ok\n27 ok yes\n" }
{}
