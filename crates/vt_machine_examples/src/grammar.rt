//! Lines, tokens and calls: what is of the grammar, and what is answered S1.
ghost use Rattle.std.specs.Prelude.{◌≡◌, [], ◌++◌, replicate, codes};
ghost use Rattle.vt_spec.specs.Machine.Run.{script_text};

/// Blank lines and comments have no answer, and count.
#[tactic(auto, unfolding(crate::specs::Opened::computed))]
pub fn silent_lines()
    ensures blank { script_text [] (codes "\n\nt ls /\n") ≡ codes "3 ok\n" }
    ensures spaces { script_text [] (codes "   \nt ls /\n") ≡ codes "2 ok\n" }
    ensures comment { script_text [] (codes "# t ls /\nt ls /\n") ≡ codes "2 ok\n" }
    ensures comment_behind_spaces { script_text [] (codes "  #t ls /\nt ls /\n") ≡ codes "2 ok\n" }
    ensures none_but_silent { script_text [] (codes "# nothing\n\n") ≡ [] }
    ensures behind_a_call { script_text [] (codes "t ls / #\n") ≡ codes "1 deny 22 EINVAL S1\n" }
    ensures escaped { script_text [] (codes "\\x23 t\n") ≡ codes "1 deny 22 EINVAL S1\n" }
{}

/// A last line without its newline counts too.
#[tactic(auto, unfolding(crate::specs::Opened::computed))]
pub fn last_line()
    ensures alone { script_text [] (codes "t ls /") ≡ codes "1 ok\n" }
    ensures behind_others { script_text [] (codes "t mkdir /d\nt ls /") ≡ codes "1 ok\n2 ok d\n" }
    ensures refused { script_text [] (codes "t") ≡ codes "1 deny 22 EINVAL S1\n" }
{}

/// Tokens stand between spaces, of which several count as one; a tab is no space.
#[tactic(auto, unfolding(crate::specs::Opened::computed))]
pub fn spaces_between_tokens()
    ensures several { script_text [] (codes "  t   mkdir  /d  700  \nt ls /\n") ≡ codes "1 ok\n2 ok d\n" }
    ensures tab { script_text [] (codes "t\tls /\n") ≡ codes "1 deny 22 EINVAL S1\n" }
    ensures carriage_return { script_text [] (codes "t ls /\r\n") ≡ codes "1 deny 22 EINVAL S1\n" }
{}

/// `\xhh` is any byte, with two lower-case digits, and `\e` is the empty text; a token is its text everywhere.
#[tactic(auto, unfolding(crate::specs::Opened::computed))]
pub fn escapes()
    ensures bytes { script_text [] (codes "t write /f a\\x20b\\x00\\xff\nt read /f\n") ≡ codes "1 ok\n2 ok a\\x20b\\x00\\xff\n" }
    ensures backslash { script_text [] (codes "t write /f \\x5c\nt read /f\n") ≡ codes "1 ok\n2 ok \\x5c\n" }
    ensures plain_byte { script_text [] (codes "t write /f \\x41\nt read /f\n") ≡ codes "1 ok\n2 ok A\n" }
    ensures name { script_text [] (codes "t mkdir /a\\x20b\nt ls /\n") ≡ codes "1 ok\n2 ok a\\x20b\n" }
    ensures word_of_the_grammar { script_text [] (codes "\\x74 \\x6cs \\x2f\n") ≡ codes "1 ok\n" }
    ensures empty { script_text [] (codes "t write /f \\e\nt read /f\n") ≡ codes "1 ok\n2 ok \\e\n" }
    ensures capital_digits { script_text [] (codes "t write /f \\xFF\n") ≡ codes "1 deny 22 EINVAL S1\n" }
    ensures one_digit { script_text [] (codes "t write /f \\x4\n") ≡ codes "1 deny 22 EINVAL S1\n" }
    ensures other_letter { script_text [] (codes "t write /f \\n\n") ≡ codes "1 deny 22 EINVAL S1\n" }
    ensures empty_within { script_text [] (codes "t write /f a\\e\n") ≡ codes "1 deny 22 EINVAL S1\n" }
    ensures backslash_alone { script_text [] (codes "t write /f \\\n") ≡ codes "1 deny 22 EINVAL S1\n" }
    ensures byte_0_in_a_path { script_text [] (codes "t ls /\\x00\n") ≡ codes "1 deny 22 EINVAL S1\n" }
{}

/// Missing and further tokens, and calls that are not there, are S1.
#[tactic(auto, unfolding(crate::specs::Opened::computed))]
pub fn words_of_a_call()
    ensures task_alone { script_text [] (codes "t\n") ≡ codes "1 deny 22 EINVAL S1\n" }
    ensures ls_without_path { script_text [] (codes "t ls\n") ≡ codes "1 deny 22 EINVAL S1\n" }
    ensures ls_with_more { script_text [] (codes "t ls / /\n") ≡ codes "1 deny 22 EINVAL S1\n" }
    ensures read_with_more { script_text [] (codes "t read /f /g\n") ≡ codes "1 deny 22 EINVAL S1\n" }
    ensures write_without_bytes { script_text [] (codes "t write /f\n") ≡ codes "1 deny 22 EINVAL S1\n" }
    ensures write_with_more { script_text [] (codes "t write /f a b\n") ≡ codes "1 deny 22 EINVAL S1\n" }
    ensures mkdir_with_more { script_text [] (codes "t mkdir /d 700 x\n") ≡ codes "1 deny 22 EINVAL S1\n" }
    ensures drop_without_caps { script_text [] (codes "t drop\n") ≡ codes "1 deny 22 EINVAL S1\n" }
    ensures unknown_call { script_text [] (codes "t list /\n") ≡ codes "1 deny 22 EINVAL S1\n" }
    ensures capital_letters { script_text [] (codes "t LS /\n") ≡ codes "1 deny 22 EINVAL S1\n" }
{}

/// A mode is one to four octal digits, at most 1777.
#[tactic(auto, unfolding(crate::specs::Opened::computed))]
pub fn modes()
    ensures least { script_text [] (codes "t mkdir /d 0\n") ≡ codes "1 ok\n" }
    ensures greatest { script_text [] (codes "t mkdir /d 1777\n") ≡ codes "1 ok\n" }
    ensures leading_zeros { script_text [] (codes "t mkdir /d 0007\n") ≡ codes "1 ok\n" }
    ensures too_great { script_text [] (codes "t mkdir /d 2000\n") ≡ codes "1 deny 22 EINVAL S1\n" }
    ensures five_digits { script_text [] (codes "t mkdir /d 00700\n") ≡ codes "1 deny 22 EINVAL S1\n" }
    ensures no_octal_digit { script_text [] (codes "t mkdir /d 780\n") ≡ codes "1 deny 22 EINVAL S1\n" }
    ensures empty { script_text [] (codes "t mkdir /d \\e\n") ≡ codes "1 deny 22 EINVAL S1\n" }
{}

/// A task is `t` and any number of `.k`, with k from 1 to 64 without leading zeros. S2 answers a task that is not
/// there.
#[tactic(auto, unfolding(crate::specs::Opened::computed))]
pub fn task_names()
    ensures child { script_text [] (codes "t.1 ls /\n") ≡ codes "1 deny 3 ESRCH S2\n" }
    ensures deep { script_text [] (codes "t.64.9.10 ls /\n") ≡ codes "1 deny 3 ESRCH S2\n" }
    ensures zero { script_text [] (codes "t.0 ls /\n") ≡ codes "1 deny 22 EINVAL S1\n" }
    ensures above_64 { script_text [] (codes "t.65 ls /\n") ≡ codes "1 deny 22 EINVAL S1\n" }
    ensures leading_zero { script_text [] (codes "t.01 ls /\n") ≡ codes "1 deny 22 EINVAL S1\n" }
    ensures empty_number { script_text [] (codes "t. ls /\n") ≡ codes "1 deny 22 EINVAL S1\n" }
    ensures other_letter { script_text [] (codes "u ls /\n") ≡ codes "1 deny 22 EINVAL S1\n" }
    ensures longer { script_text [] (codes "tt ls /\n") ≡ codes "1 deny 22 EINVAL S1\n" }
    ensures grammar_first { script_text [] (codes "t.1 ls\n") ≡ codes "1 deny 22 EINVAL S1\n" }
{}

/// Capabilities are `-`, `*`, or names between commas.
#[tactic(auto, unfolding(crate::specs::Opened::computed))]
pub fn capability_words()
    ensures none { script_text [] (codes "t drop -\n") ≡ codes "1 ok\n" }
    ensures all { script_text [] (codes "t drop *\n") ≡ codes "1 ok\n" }
    ensures names { script_text [] (codes "t drop CAP_CHOWN,CAP_DAC_OVERRIDE,CAP_DAC_READ_SEARCH,CAP_FOWNER,CAP_SETGID,CAP_SETUID,CAP_SYS_CHROOT,CAP_SYS_ADMIN\n") ≡ codes "1 ok\n" }
    ensures repeated { script_text [] (codes "t drop CAP_CHOWN,CAP_CHOWN\n") ≡ codes "1 ok\n" }
    ensures not_held { script_text [] (codes "t drop *\nt drop CAP_CHOWN\n") ≡ codes "1 ok\n2 ok\n" }
    ensures unknown { script_text [] (codes "t drop CAP_NET_ADMIN\n") ≡ codes "1 deny 22 EINVAL S1\n" }
    ensures empty_name { script_text [] (codes "t drop CAP_CHOWN,\n") ≡ codes "1 deny 22 EINVAL S1\n" }
    ensures none_among_names { script_text [] (codes "t drop CAP_CHOWN,-\n") ≡ codes "1 deny 22 EINVAL S1\n" }
    ensures empty { script_text [] (codes "t drop \\e\n") ≡ codes "1 deny 22 EINVAL S1\n" }
{}

/// The longest line is taken, and a longer one is refused whole, whatever it begins with.
#[tactic(auto, unfolding(crate::specs::Opened::computed))]
pub fn longest_line()
    ensures of_8192_bytes { script_text [] (codes "t write /f " ++ replicate 8181 97 ++ codes "\n") ≡ codes "1 ok\n" }
    ensures of_8193_bytes { script_text [] (codes "t write /f " ++ replicate 8182 97 ++ codes "\n") ≡ codes "1 deny 22 EINVAL S1\n" }
    ensures comment_of_8192_bytes { script_text [] (codes "#" ++ replicate 8191 97 ++ codes "\n") ≡ [] }
    ensures comment_of_8193_bytes { script_text [] (codes "#" ++ replicate 8192 97 ++ codes "\n") ≡ codes "1 deny 22 EINVAL S1\n" }
    ensures spaces_of_8193_bytes { script_text [] (replicate 8193 32 ++ codes "\n") ≡ codes "1 deny 22 EINVAL S1\n" }
{}
