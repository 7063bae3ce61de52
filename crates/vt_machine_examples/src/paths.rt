//! Paths: where they lead, their last words, and the rules of a walk.
ghost use Rattle.std.specs.Prelude.{◌≡◌, ℕ, [], ◌++◌, replicate, codes};
ghost use Rattle.std.specs.List.{flat_map};
ghost use Rattle.vt_spec.specs.Machine.Run.{script_text};

/// Repeated slashes count as one, `.` stays, `..` leads to the parent and stays at the root, and a path without a
/// slash in front starts at the working directory, which is the root.
#[tactic(auto, unfolding(crate::specs::Opened::computed))]
pub fn ways_of_a_path()
    ensures slashes { script_text [] (codes "t mkdir /d\nt mkdir /d/e\nt ls //d///\n") ≡ codes "1 ok\n2 ok\n3 ok e\n" }
    ensures dot { script_text [] (codes "t mkdir /d\nt ls /./.\n") ≡ codes "1 ok\n2 ok d\n" }
    ensures dot_dot { script_text [] (codes "t mkdir /d\nt mkdir /d/e\nt ls /d/e/..\n") ≡ codes "1 ok\n2 ok\n3 ok e\n" }
    ensures above_the_root { script_text [] (codes "t mkdir /d\nt ls /../..\n") ≡ codes "1 ok\n2 ok d\n" }
    ensures from_the_working_directory { script_text [] (codes "t mkdir d\nt write d/f hi\nt read ./d/f\nt ls .\n") ≡ codes "1 ok\n2 ok\n3 ok hi\n4 ok d\n" }
{}

/// The last word of `mkdir`: `.`, `..` and no word are there already, and a trailing slash has no effect.
#[tactic(auto, unfolding(crate::specs::Opened::computed))]
pub fn last_word_of_mkdir()
    ensures dot { script_text [] (codes "t mkdir /.\n") ≡ codes "1 deny 17 EEXIST E1\n" }
    ensures dot_dot { script_text [] (codes "t mkdir /..\n") ≡ codes "1 deny 17 EEXIST E1\n" }
    ensures no_word { script_text [] (codes "t mkdir /\n") ≡ codes "1 deny 17 EEXIST E1\n" }
    ensures trailing_slash { script_text [] (codes "t mkdir /d/\nt ls /\n") ≡ codes "1 ok\n2 ok d\n" }
    ensures trailing_slash_of_a_file { script_text [] (codes "t write /f x\nt mkdir /f/\n") ≡ codes "1 ok\n2 deny 17 EEXIST E1\n" }
    ensures dot_of_a_missing_name { script_text [] (codes "t mkdir /d/.\n") ≡ codes "1 deny 2 ENOENT W6\n" }
    ensures dot_of_a_file { script_text [] (codes "t write /f x\nt mkdir /f/.\n") ≡ codes "1 ok\n2 deny 20 ENOTDIR W3\n" }
{}

/// The last word of `write`: `.`, `..`, no word and a trailing slash name no file, whatever is there.
#[tactic(auto, unfolding(crate::specs::Opened::computed))]
pub fn last_word_of_write()
    ensures dot { script_text [] (codes "t write /. x\n") ≡ codes "1 deny 21 EISDIR E2\n" }
    ensures dot_dot { script_text [] (codes "t write /.. x\n") ≡ codes "1 deny 21 EISDIR E2\n" }
    ensures no_word { script_text [] (codes "t write / x\n") ≡ codes "1 deny 21 EISDIR E2\n" }
    ensures trailing_slash_of_a_missing_name { script_text [] (codes "t write /f/ x\nt ls /\n") ≡ codes "1 deny 21 EISDIR E2\n2 ok\n" }
    ensures trailing_slash_of_a_file { script_text [] (codes "t write /f x\nt write /f/ y\nt read /f\n") ≡ codes "1 ok\n2 deny 21 EISDIR E2\n3 ok x\n" }
    ensures directory { script_text [] (codes "t mkdir /d\nt write /d x\n") ≡ codes "1 ok\n2 deny 21 EISDIR E2\n" }
    ensures dot_of_a_missing_name { script_text [] (codes "t write /d/. x\n") ≡ codes "1 deny 2 ENOENT W6\n" }
    ensures trailing_slash_in_a_file { script_text [] (codes "t write /f x\nt write /f/g/ y\n") ≡ codes "1 ok\n2 deny 20 ENOTDIR W3\n" }
{}

/// The last word of `rename`: `.`, `..` and no word of either path name no entry. A trailing slash asks that a
/// directory is renamed; the slashes of a path without words stand behind no word, and ask for nothing.
#[tactic(auto, unfolding(crate::specs::Opened::computed))]
pub fn last_word_of_rename()
    ensures dot { script_text [] (codes "t write /f x\nt rename /f /.\n") ≡ codes "1 ok\n2 deny 16 EBUSY P1\n" }
    ensures dot_dot { script_text [] (codes "t write /f x\nt rename /f /..\n") ≡ codes "1 ok\n2 deny 16 EBUSY P1\n" }
    ensures no_word { script_text [] (codes "t write /f x\nt rename /f /\n") ≡ codes "1 ok\n2 deny 16 EBUSY P1\n" }
    ensures no_word_but_slashes { script_text [] (codes "t write /f x\nt rename /f //\n") ≡ codes "1 ok\n2 deny 16 EBUSY P1\n" }
    ensures no_word_for_a_directory { script_text [] (codes "t mkdir /d\nt rename /d /\n") ≡ codes "1 ok\n2 deny 16 EBUSY P1\n" }
    ensures no_word_of_the_old_path { script_text [] (codes "t write /f x\nt rename / /f\n") ≡ codes "1 ok\n2 deny 16 EBUSY P1\n" }
    ensures trailing_slash_of_the_old_path { script_text [] (codes "t write /f x\nt rename /f/ /\n") ≡ codes "1 ok\n2 deny 20 ENOTDIR W3\n" }
    ensures trailing_slash { script_text [] (codes "t write /f x\nt rename /f /g/\n") ≡ codes "1 ok\n2 deny 20 ENOTDIR W3\n" }
    ensures trailing_slash_for_a_directory { script_text [] (codes "t mkdir /d\nt rename /d /e/\n") ≡ codes "1 ok\n2 ok\n" }
{}

/// A path without words is the root, and names no entry.
#[tactic(auto, unfolding(crate::specs::Opened::computed))]
pub fn no_word_of_other_calls()
    ensures stat { script_text [] (codes "t stat /\nt lstat //\n") ≡ codes "1 ok dir 0755 0 0\n2 ok dir 0755 0 0\n" }
    ensures symlink { script_text [] (codes "t symlink x /\n") ≡ codes "1 deny 17 EEXIST E1\n" }
    ensures link { script_text [] (codes "t write /f x\nt link /f /\n") ≡ codes "1 ok\n2 deny 17 EEXIST E1\n" }
    ensures open { script_text [] (codes "t open / w\nt open / w create 600\n") ≡ codes "1 deny 21 EISDIR E2\n2 deny 21 EISDIR E2\n" }
    ensures open_exclusively { script_text [] (codes "t open / w excl 600\n") ≡ codes "1 deny 17 EEXIST E1\n" }
    ensures unlink { script_text [] (codes "t unlink /\n") ≡ codes "1 deny 21 EISDIR E2\n" }
    ensures rmdir { script_text [] (codes "t rmdir /\n") ≡ codes "1 deny 16 EBUSY P1\n" }
{}

/// W1: an empty path.
#[tactic(auto, unfolding(crate::specs::Opened::computed))]
pub fn empty_path()
    ensures ls { script_text [] (codes "t ls \\e\n") ≡ codes "1 deny 2 ENOENT W1\n" }
    ensures mkdir { script_text [] (codes "t mkdir \\e\n") ≡ codes "1 deny 2 ENOENT W1\n" }
    ensures write { script_text [] (codes "t write \\e x\n") ≡ codes "1 deny 2 ENOENT W1\n" }
    ensures read { script_text [] (codes "t read \\e\n") ≡ codes "1 deny 2 ENOENT W1\n" }
{}

/// W2: a path of more than 4,095 bytes, or with a name of more than 255, which is known before the first step.
#[tactic(auto, unfolding(crate::specs::Opened::computed))]
pub fn long_paths()
    ensures path_of_4095_bytes { script_text [] (codes "t ls " ++ flat_map (λ (n : ℕ). codes "/.") (replicate 2047 0) ++ codes "/\n") ≡ codes "1 ok\n" }
    ensures path_of_4096_bytes { script_text [] (codes "t ls " ++ flat_map (λ (n : ℕ). codes "/.") (replicate 2048 0) ++ codes "\n") ≡ codes "1 deny 36 ENAMETOOLONG W2\n" }
    ensures name_of_255_bytes { script_text [] (codes "t mkdir /" ++ replicate 255 97 ++ codes "\nt ls /\n") ≡ codes "1 ok\n2 ok " ++ replicate 255 97 ++ codes "\n" }
    ensures name_of_256_bytes { script_text [] (codes "t mkdir /" ++ replicate 256 97 ++ codes "\nt ls /\n") ≡ codes "1 deny 36 ENAMETOOLONG W2\n2 ok\n" }
    ensures before_the_first_step { script_text [] (codes "t ls /missing/" ++ replicate 256 97 ++ codes "\n") ≡ codes "1 deny 36 ENAMETOOLONG W2\n" }
{}

/// W3: a word behind what is no directory, and a trailing slash of it.
#[tactic(auto, unfolding(crate::specs::Opened::computed))]
pub fn no_directory()
    ensures word { script_text [] (codes "t write /f x\nt read /f/g\n") ≡ codes "1 ok\n2 deny 20 ENOTDIR W3\n" }
    ensures dot { script_text [] (codes "t write /f x\nt read /f/.\n") ≡ codes "1 ok\n2 deny 20 ENOTDIR W3\n" }
    ensures dot_dot { script_text [] (codes "t write /f x\nt ls /f/..\n") ≡ codes "1 ok\n2 deny 20 ENOTDIR W3\n" }
    ensures trailing_slash { script_text [] (codes "t write /f x\nt read /f/\n") ≡ codes "1 ok\n2 deny 20 ENOTDIR W3\n" }
    ensures listed { script_text [] (codes "t write /f x\nt ls /f\n") ≡ codes "1 ok\n2 deny 20 ENOTDIR W3\n" }
{}

/// W4: a directory that the task may not search, `.` and `..` in it included, whether the name is there or not.
#[tactic(auto, unfolding(crate::specs::Opened::computed))]
pub fn no_search()
    ensures missing { script_text [] (codes "t mkdir /n 600\nt drop *\nt read /n/x\n") ≡ codes "1 ok\n2 ok\n3 deny 13 EACCES W4\n" }
    ensures there { script_text [] (codes "t mkdir /n 600\nt write /n/x a\nt drop *\nt read /n/x\n") ≡ codes "1 ok\n2 ok\n3 ok\n4 deny 13 EACCES W4\n" }
    ensures dot { script_text [] (codes "t mkdir /n 600\nt drop *\nt ls /n/.\n") ≡ codes "1 ok\n2 ok\n3 deny 13 EACCES W4\n" }
    ensures dot_dot { script_text [] (codes "t mkdir /n 600\nt drop *\nt ls /n/..\n") ≡ codes "1 ok\n2 ok\n3 deny 13 EACCES W4\n" }
    ensures itself { script_text [] (codes "t mkdir /n 600\nt drop *\nt ls /n\n") ≡ codes "1 ok\n2 ok\n3 ok\n" }
{}

/// W6: a missing name.
#[tactic(auto, unfolding(crate::specs::Opened::computed))]
pub fn missing_name()
    ensures read { script_text [] (codes "t read /g\n") ≡ codes "1 deny 2 ENOENT W6\n" }
    ensures listed { script_text [] (codes "t ls /g\n") ≡ codes "1 deny 2 ENOENT W6\n" }
    ensures on_the_way { script_text [] (codes "t mkdir /g/d\n") ≡ codes "1 deny 2 ENOENT W6\n" }
    ensures on_the_way_of_a_write { script_text [] (codes "t write /g/f x\n") ≡ codes "1 deny 2 ENOENT W6\n" }
{}
