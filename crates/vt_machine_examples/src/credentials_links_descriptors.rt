//! Worked examples: credentials links descriptors.
ghost use Rattle.std.specs.Prelude.{◌≡◌, [], codes, ◌++◌, ◌+◌, decimal, replicate, ℕ};
ghost use Rattle.std.specs.List.{flat_map, range_with_len};
ghost use Rattle.vt_spec.specs.Machine.Run.{machine_text};
ghost use Rattle.vt_spec.specs.Language.Script.{Version};

/// An owner without owner bits gets nothing from the other bits.
pub fn owner_class_alone()
    ensures { (version : Version) → machine_text version [] (codes "t write /f hi\nt chmod /f 044\nt chown /f 7 7\nt fork 7 7 - -\nt.1 read /f\nt read /f\n")
        ≡ codes "1 ok\n2 ok\n3 ok\n4 ok t.1\n5 deny 13 EACCES C1\n6 ok hi\n" }
{}

/// CAP_DAC_OVERRIDE grants execute of a file only where one execute bit is set.
pub fn execute_without_an_execute_bit()
    ensures { (version : Version) → machine_text version [] (codes "t write /f x\nt exec /f\nt chmod /f 001\nt exec /f\n") ≡ codes "1 ok\n2 deny 13 EACCES C1\n3 ok\n4 ok\n" }
{}

/// Forty links are followed for one path, the next is refused.
pub fn chain_of_links()
    ensures { (version : Version) → machine_text version [] (codes "t write /l0 z\n"
        ++ flat_map (λ n. codes "t symlink l" ++ decimal n ++ codes " /l" ++ decimal (n + 1) ++ codes "\n") (range_with_len 0 41)
        ++ codes "t read /l40\nt read /l41\n")
        ≡ flat_map (λ n. decimal n ++ codes " ok\n") (range_with_len 1 42)
        ++ codes "43 ok z\n44 deny 40 ELOOP W7\n" }
{}

/// The limits of a path and of a name, at the edge and one past it.
pub fn longest_path_and_name()
    ensures { (version : Version) → machine_text version [] (codes "t stat " ++ flat_map (λ (n : ℕ). codes "/.") (range_with_len 0 2047) ++ codes "/\n"
        ++ codes "t stat " ++ flat_map (λ (n : ℕ). codes "/.") (range_with_len 0 2048) ++ codes "\n"
        ++ codes "t mkdir /" ++ replicate 255 97 ++ codes "\n"
        ++ codes "t mkdir /" ++ replicate 256 97 ++ codes "\n")
        ≡ codes "1 ok dir 0755 0 0\n2 deny 36 ENAMETOOLONG W2\n3 ok\n4 deny 36 ENAMETOOLONG W2\n" }
{}

/// Rename over one object, over other kinds and into itself; a descriptor on a file without a
/// name.
pub fn rename_kinds_and_unlinked_descriptor()
    ensures { (version : Version) → machine_text version [] (codes "t mkdir /a\nt mkdir /a/b\nt write /f x\nt link /f /g\nt rename /f /g\nt ls /\nt rename /a /a/b/c\n"
        ++ codes "t rename /f /a\nt rename /a /f\nt mkdir /e\nt rename /e /a\nt rename /a/. /q\nt rename /e /a/b\n"
        ++ codes "t open /g rw\nt unlink /f\nt unlink /g\nt pwrite 0 3 z\nt pread 0 0 9\nt close 0\nt close 0\n")
        ≡ codes "1 ok\n2 ok\n3 ok\n4 ok\n5 ok\n6 ok a f g\n7 deny 22 EINVAL E5\n8 deny 21 EISDIR E2\n"
        ++ codes "9 deny 20 ENOTDIR E3\n10 ok\n11 deny 39 ENOTEMPTY E4\n12 deny 16 EBUSY P1\n13 ok\n14 ok 0\n15 ok\n"
        ++ codes "16 ok\n17 ok\n18 ok x\\x00\\x00z\n19 ok\n20 deny 9 EBADF S4\n" }
{}

/// An owner gives a file to one of his groups; umask; fork without the capability.
pub fn groups_umask_and_refused_chown()
    ensures { (version : Version) → machine_text version [] (codes "t mkdir /s\nt chmod /s 777\nt fork 7 7 8,9 -\nt.1 write /s/f x\nt.1 chown /s/f - 9\n"
        ++ codes "t.1 chown /s/f 8 -\nt.1 stat /s/f\nt.1 umask 77\nt.1 mkdir /s/d\nt.1 stat /s/d\nt.1 fork 0 7 8,9 -\n")
        ≡ codes "1 ok\n2 ok\n3 ok t.1\n4 ok\n5 ok\n6 deny 1 EPERM C2\n7 ok file 0644 7 9 1\n8 ok\n9 ok\n"
        ++ codes "10 ok dir 0700 7 7\n11 deny 1 EPERM K1\n" }
{}

/// Exclusive and followed creation through a link; a sticky directory; escaped bytes.
pub fn sticky_directory_and_links()
    ensures { (version : Version) → machine_text version [] (codes "t symlink /x /y\nt open /y w excl 600\nt open /y w create 600\nt stat /x\nt mkdir /s\n"
        ++ codes "t chmod /s 1777\nt fork 7 7 - -\nt fork 8 8 - -\nt.1 write /s/f a\\x20b\nt.2 unlink /s/f\n"
        ++ codes "t.2 read /s/f\n")
        ≡ codes "1 ok\n2 deny 17 EEXIST E1\n3 ok 0\n4 ok file 0600 0 0 0\n5 ok\n6 ok\n7 ok t.1\n8 ok t.2\n9 ok\n"
        ++ codes "10 deny 1 EPERM C3\n11 ok a\\x20b\n" }
{}

/// A bad line, no such task, no such descriptor, the empty path, empty bytes.
pub fn bad_lines()
    ensures { (version : Version) → machine_text version [] (codes "t mkdir\nt.9 ls /\nt pread 5 0 1\nt stat \\e\nt write /f \\e\nt read /f\n")
        ≡ codes "1 deny 22 EINVAL S1\n2 deny 3 ESRCH S2\n3 deny 9 EBADF S4\n4 deny 2 ENOENT W1\n5 ok\n6 ok \\e\n" }
{}

/// A missing name is found once made, and is missing again once renamed.
pub fn name_that_comes_and_goes()
    ensures { (version : Version) → machine_text version [] (codes "t read /x\nt write /x a\nt read /x\nt rename /x /y\nt read /x\nt read /y\n")
        ≡ codes "1 deny 2 ENOENT W6\n2 ok\n3 ok a\n4 ok\n5 deny 2 ENOENT W6\n6 ok a\n" }
{}

/// A link to itself loops; it can be looked at itself.
pub fn link_to_itself()
    ensures { (version : Version) → machine_text version [] (codes "t symlink /x /x\nt stat /x\nt lstat /x\n") ≡ codes "1 ok\n2 deny 40 ELOOP W7\n3 ok link 0777 0 0 2\n" }
{}

/// A link whose text has a name over the limit can be made, not followed.
pub fn link_text_with_a_long_name()
    ensures { (version : Version) → machine_text version [] (codes "t symlink " ++ replicate 256 97 ++ codes " /y\n"
        ++ codes "t stat /y\n")
        ≡ codes "1 ok\n2 deny 36 ENAMETOOLONG W2\n" }
{}

/// The limit of forks of one task.
pub fn sixty_four_forks()
    ensures { (version : Version) → machine_text version [] (flat_map (λ (n : ℕ). codes "t fork\n") (range_with_len 0 65))
        ≡ flat_map (λ n. decimal n ++ codes " ok t." ++ decimal n ++ codes "\n") (range_with_len 1 64)
        ++ codes "65 deny 28 ENOSPC S6\n" }
{}

/// The limit of numbers in a task name.
pub fn deepest_task_name()
    ensures { (version : Version) → machine_text version [] (codes "t fork\nt.1 fork\nt.1.1 fork\nt.1.1.1 fork\nt.1.1.1.1 fork\nt.1.1.1.1.1 fork\nt.1.1.1.1.1.1 fork\n"
        ++ codes "t.1.1.1.1.1.1.1 fork\nt.1.1.1.1.1.1.1.1 fork\n")
        ≡ codes "1 ok t.1\n2 ok t.1.1\n3 ok t.1.1.1\n4 ok t.1.1.1.1\n5 ok t.1.1.1.1.1\n6 ok t.1.1.1.1.1.1\n"
        ++ codes "7 ok t.1.1.1.1.1.1.1\n8 ok t.1.1.1.1.1.1.1.1\n9 deny 28 ENOSPC S6\n" }
{}

/// The limit of open descriptors.
pub fn descriptor_257()
    ensures { (version : Version) → machine_text version [] (codes "t write /f x\n"
        ++ flat_map (λ (n : ℕ). codes "t open /f r\n") (range_with_len 0 257))
        ≡ codes "1 ok\n"
        ++ flat_map (λ n. decimal (n + 2) ++ codes " ok " ++ decimal n ++ codes "\n") (range_with_len 0 256)
        ++ codes "258 deny 24 EMFILE S3\n" }
{}
