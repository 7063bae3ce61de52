//! Worked examples: first path.
ghost use Rattle.std.specs.Prelude.{◌≡◌, [], codes, ◌++◌, replicate};
ghost use Rattle.vt_spec.specs.Machine.Run.{machine_text, script_text};
ghost use Rattle.vt_spec.specs.Language.Script.{Version};

/// An empty script writes nothing.
pub fn empty_script()
    ensures { script_text [] (codes "") ≡ codes "" }
{}

/// The same of the whole machine.
pub fn empty_script_in_the_whole()
    ensures { (version : Version) → machine_text version [] (codes "") ≡ codes "" }
{}

/// A directory is made and the root listed.
pub fn one_directory_listed()
    ensures { script_text [] (codes "t mkdir /d\nt ls /\n") ≡ codes "1 ok\n2 ok d\n" }
{}

/// The same of the whole machine.
pub fn one_directory_listed_in_the_whole()
    ensures { (version : Version) → machine_text version [] (codes "t mkdir /d\nt ls /\n") ≡ codes "1 ok\n2 ok d\n" }
{}

/// Make, write, read and list on one tree; dropped capabilities; wrong kinds and missing names.
pub fn one_task_one_tree()
    ensures { script_text [] (codes "t mkdir /d 700\nt write /d/f hi\nt read /d/f\nt ls /d/../d/.\nt mkdir /d\nt read /d\nt ls /d/f\n"
        ++ codes "t read /g\nt mkdir /n 0\nt drop *\nt ls /n\nt ls /n/x\nt write /f \\e\nt read /f\nt ls /\n")
        ≡ codes "1 ok\n2 ok\n3 ok hi\n4 ok f\n5 deny 17 EEXIST E1\n6 deny 21 EISDIR E2\n7 deny 20 ENOTDIR W3\n"
        ++ codes "8 deny 2 ENOENT W6\n9 ok\n10 ok\n11 deny 13 EACCES C1\n12 deny 13 EACCES W4\n13 ok\n14 ok \\e\n"
        ++ codes "15 ok d f n\n" }
{}

/// The same of the whole machine.
pub fn one_task_one_tree_in_the_whole()
    ensures { (version : Version) → machine_text version [] (codes "t mkdir /d 700\nt write /d/f hi\nt read /d/f\nt ls /d/../d/.\nt mkdir /d\nt read /d\nt ls /d/f\n"
        ++ codes "t read /g\nt mkdir /n 0\nt drop *\nt ls /n\nt ls /n/x\nt write /f \\e\nt read /f\nt ls /\n")
        ≡ codes "1 ok\n2 ok\n3 ok hi\n4 ok f\n5 deny 17 EEXIST E1\n6 deny 21 EISDIR E2\n7 deny 20 ENOTDIR W3\n"
        ++ codes "8 deny 2 ENOENT W6\n9 ok\n10 ok\n11 deny 13 EACCES C1\n12 deny 13 EACCES W4\n13 ok\n14 ok \\e\n"
        ++ codes "15 ok d f n\n" }
{}

/// The longest script line is taken.
pub fn line_of_8192_bytes()
    ensures { script_text [] (codes "t write /f " ++ replicate 8181 97 ++ codes "\n")
        ≡ codes "1 ok\n" }
{}

/// The same of the whole machine.
pub fn line_of_8192_bytes_in_the_whole()
    ensures { (version : Version) → machine_text version [] (codes "t write /f " ++ replicate 8181 97 ++ codes "\n")
        ≡ codes "1 ok\n" }
{}

/// A line over the limit is refused whole.
pub fn line_of_8193_bytes()
    ensures { script_text [] (codes "t write /f " ++ replicate 8182 97 ++ codes "\n")
        ≡ codes "1 deny 22 EINVAL S1\n" }
{}

/// The same of the whole machine.
pub fn line_of_8193_bytes_in_the_whole()
    ensures { (version : Version) → machine_text version [] (codes "t write /f " ++ replicate 8182 97 ++ codes "\n")
        ≡ codes "1 deny 22 EINVAL S1\n" }
{}
