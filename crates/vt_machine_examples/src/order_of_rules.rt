//! Worked examples: where several rules fail at once.
ghost use Rattle.std.specs.Prelude.{◌≡◌, [], codes, ◌++◌};
ghost use Rattle.vt_spec.specs.Machine.Run.{machine_text};
ghost use Rattle.vt_spec.specs.Language.Script.Version.{One};

/// The special last word of the first path answers before the second path is walked.
pub fn special_words_before_the_second_path()
    ensures { machine_text One [] (codes "t mkdir /d\nt write /f x\nt rename /d/. /no/x\nt rename /f /d/../\nt open /d/./ r excl 600\n"
        ++ codes "t open /f/ r excl 600\nt open /f/ r\nt write /f/ y\nt write /g/ y\nt write / y\nt write /f/../h y\n"
        ++ codes "t rmdir /f/\nt mkdir /f/\nt mkdir /e/\nt symlink x /f/\nt symlink x /g/\nt whiteout /g/\n"
        ++ codes "t link /f /g/\nt unlink /f/\nt unlink /d/\nt unlink /d/.\nt rmdir /d/.\nt rmdir /d/..\nt rmdir /\n"
        ++ codes "t symlink \\e /y\nt readlink /f\nt exec /d\n")
        ≡ codes "1 ok\n2 ok\n3 deny 16 EBUSY P1\n4 deny 20 ENOTDIR W3\n5 deny 17 EEXIST E1\n6 deny 21 EISDIR E2\n"
        ++ codes "7 deny 20 ENOTDIR W3\n8 deny 21 EISDIR E2\n9 deny 21 EISDIR E2\n10 deny 21 EISDIR E2\n"
        ++ codes "11 deny 20 ENOTDIR W3\n12 deny 20 ENOTDIR E3\n13 deny 17 EEXIST E1\n14 ok\n15 deny 17 EEXIST E1\n"
        ++ codes "16 deny 2 ENOENT W6\n17 deny 2 ENOENT W6\n18 deny 2 ENOENT W6\n19 deny 20 ENOTDIR W3\n"
        ++ codes "20 deny 21 EISDIR E2\n21 deny 21 EISDIR E2\n22 deny 22 EINVAL E5\n23 deny 39 ENOTEMPTY E4\n"
        ++ codes "24 deny 16 EBUSY P1\n25 deny 2 ENOENT W1\n26 deny 22 EINVAL E5\n27 deny 13 EACCES E8\n" }
{}

/// A path without words is the task's root, and names no entry; its slashes stand behind no word, and ask for nothing.
pub fn paths_without_words()
    ensures { machine_text One [] (codes "t write /f x\nt mkdir /d\nt rename /f /\nt rename /f //\nt rename / /f\nt rename /d /\n"
        ++ codes "t rename /f/ /\nt rename /f /g/\nt rename /d /e/\nt symlink / /l\nt rename /l /\nt rename /l ///\n"
        ++ codes "t stat /\nt lstat //\nt open / w\nt open / w create 600\nt open / w excl 600\nt write / x\n"
        ++ codes "t write /l x\nt mkdir /\nt symlink x /\nt whiteout /\nt link /f /\nt unlink /\nt rmdir /\n"
        ++ codes "t ls /\n")
        ≡ codes "1 ok\n2 ok\n3 deny 16 EBUSY P1\n4 deny 16 EBUSY P1\n5 deny 16 EBUSY P1\n6 deny 16 EBUSY P1\n"
        ++ codes "7 deny 20 ENOTDIR W3\n8 deny 20 ENOTDIR W3\n9 ok\n10 ok\n11 deny 16 EBUSY P1\n12 deny 16 EBUSY P1\n"
        ++ codes "13 ok dir 0755 0 0\n14 ok dir 0755 0 0\n15 deny 21 EISDIR E2\n16 deny 21 EISDIR E2\n17 deny 17 EEXIST E1\n"
        ++ codes "18 deny 21 EISDIR E2\n19 deny 21 EISDIR E2\n20 deny 17 EEXIST E1\n21 deny 17 EEXIST E1\n22 deny 17 EEXIST E1\n"
        ++ codes "23 deny 17 EEXIST E1\n24 deny 21 EISDIR E2\n25 deny 16 EBUSY P1\n26 ok e f l\n" }
{}

/// What a removed working directory answers.
pub fn a_removed_working_directory()
    ensures { machine_text One [] (codes "t mkdir /a\nt chdir /a\nt rmdir /a\nt mkdir ..\nt mkdir .\nt rmdir .\nt unlink .\nt unlink x\n"
        ++ codes "t write x y\nt open x w create 600\nt open x r\nt rename x /q\nt write /f 1\nt rename /f x\n"
        ++ codes "t symlink l y/\nt chdir .\nt chroot .\nt ls /\nt ls /..\nt mount plain .\nt umount .\n")
        ≡ codes "1 ok\n2 ok\n3 ok\n4 deny 2 ENOENT W8\n5 deny 17 EEXIST E1\n6 deny 22 EINVAL E5\n"
        ++ codes "7 deny 21 EISDIR E2\n8 deny 2 ENOENT W6\n9 deny 2 ENOENT W8\n10 deny 2 ENOENT W8\n"
        ++ codes "11 deny 2 ENOENT W6\n12 deny 2 ENOENT W6\n13 ok\n14 deny 2 ENOENT W8\n15 deny 2 ENOENT W8\n16 ok\n"
        ++ codes "17 ok\n18 ok\n19 ok\n20 deny 2 ENOENT W8\n21 deny 22 EINVAL M7\n" }
{}

/// Texts of links: absolute, with a slash, of dots.
pub fn links_and_slashes()
    ensures { machine_text One [] (codes "t mkdir /d\nt mkdir /d/e\nt write /d/f x\nt symlink d/ /l\nt ls /l\nt symlink d/f/ /k\nt read /k\n"
        ++ codes "t write /k y\nt symlink / /r\nt ls /r\nt write /r y\nt symlink .. /d/e/up\nt ls /d/e/up\n"
        ++ codes "t lstat /d/e/up\nt lstat /d/e/up/\nt readlink /l/\nt symlink new /d/n\nt write /d/n made\n"
        ++ codes "t read /d/new\nt open /d/n w excl 600\nt link /d/n /d/m\nt readlink /d/m\nt unlink /l/\n"
        ++ codes "t rename /l/ /q\n")
        ≡ codes "1 ok\n2 ok\n3 ok\n4 ok\n5 ok e f\n6 ok\n7 deny 20 ENOTDIR W3\n8 deny 21 EISDIR E2\n9 ok\n"
        ++ codes "10 ok d k l r\n11 deny 21 EISDIR E2\n12 ok\n13 ok e f\n14 ok link 0777 0 0 2\n15 ok dir 0755 0 0\n"
        ++ codes "16 deny 22 EINVAL E5\n17 ok\n18 ok\n19 ok made\n20 deny 17 EEXIST E1\n21 ok\n22 ok new\n"
        ++ codes "23 deny 20 ENOTDIR W3\n24 deny 20 ENOTDIR W3\n" }
{}
