//! Tests of the program's words, faults and exit status.
use std::alloc::{AllocError, Global};
use std::env::FillError;
use std::fs::File;
use std::io::Write;
use std::rt::{Env, Files};
use std::test::Fail;
use std::{env, fs};
use vt_commands::{Explainer, Fault, LineAsked, Pace, obey, status, words};

// No line is explained here.
struct NoExplainer;

impl Explainer for NoExplainer {
    fn explain<R: Files + Input + Eprint + AllocGlobal, W: Write>(
        _rt: &R,
        _name: &str,
        _asked: LineAsked,
        _output: &mut W,
    ) -> Result<(), Fault> {
        Err(Fault::Found)
    }
}

fn owned(alloc: Global, words: &[&str]) -> Result<Vec<String>, AllocError> {
    let mut all = Vec::new(alloc);
    for word in words {
        all.push(word.to_string(alloc)?)?;
    }
    Ok(all)
}

// Words that are faults, the status of each, and its text.
const FAULTS: [(&[&str], u8, &str); 16] = [
    (
        &["vtree", "chek", "a"],
        2,
        "unrecognized subcommand 'chek'; a similar subcommand exists: 'check'; `vtree --help` says what it takes",
    ),
    (
        &["vtree", "test", "--write", "a", "-"],
        2,
        "`--write` takes files, and not the standard input; `vtree --help` says what it takes",
    ),
    (
        &["vtree", "run", "--script", "3", "a"],
        2,
        "invalid value '3' for '--script <VERSION>' [possible values: 1, 2]; `vtree --help` says what it takes",
    ),
    (
        &["vtree", "explain", "a", "0"],
        2,
        "LINE is the number of a line, from 1; `vtree --help` says what it takes",
    ),
    (
        &["vtree", "run"],
        2,
        "the following required arguments were not provided: <FILE>; `vtree --help` says what it takes",
    ),
    (
        &["vtree", "turns", "a"],
        2,
        "`turns` takes a schedule, or `--all`; `vtree --help` says what it takes",
    ),
    (
        &["vtree", "turns", "--all", "a", "b"],
        2,
        "`turns` takes a schedule or `--all`, and not both; `vtree --help` says what it takes",
    ),
    (
        &["vtree", "turns", "--most", "5", "a", "b"],
        2,
        "`--unborn`, `--most` and `--format json` are of `--all` alone; `vtree --help` says what it takes",
    ),
    (
        &["vtree", "turns", "--all", "--most", "few", "a"],
        2,
        "`--most` takes a number of orders; `vtree --help` says what it takes",
    ),
    (
        &["vtree", "from", "oci", "--check", "a"],
        2,
        "`--task` and `--check` are of `mountinfo` alone; `vtree --help` says what it takes",
    ),
    (
        &["vtree", "from", "mountinfo", "--task", "web", "a"],
        2,
        "`--task` takes NAME=FILE, the table of mounts of a further task; `vtree --help` says what it takes",
    ),
    (
        &["vtree", "run", "a", "b"],
        2,
        "unexpected argument 'b' found; `vtree --help` says what it takes",
    ),
    (
        &["vtree", "quux"],
        2,
        "unrecognized subcommand 'quux'; `vtree --help` says what it takes",
    ),
    (&["vtree", "--version"], 2, "vtree 0.4.0\n"),
    (
        &["vtree", "run", "/no/such/file"],
        1,
        "cannot open /no/such/file: No such file or directory (os error 2); check its name, and that you may read it",
    ),
    (
        &["vtree", "run", "/"],
        1,
        "cannot read /: Is a directory (os error 21); the lines before that were answered; give a file that holds a \
         script",
    ),
];

#[test]
fn faults_name_what_failed_and_what_to_do(rt: HostRuntime) -> Result<(), Fail> {
    for (words, wanted, text) in FAULTS {
        let mut output = Vec::new(rt.alloc());
        let words = owned(rt.alloc(), words)?;
        let outcome = obey::<NoExplainer, _, _>(&rt, words.as_slice(), Pace::Blocks, &mut output);
        assert_eq!(rt; status(&outcome), wanted);
        assert!(rt; output.is_empty());
        let said = outcome.expect_err(&rt, "no fault").to_string(rt.alloc())?;
        assert!(rt; said.as_bytes() == text.as_bytes());
    }
    Ok(())
}

// What a command writes: all of it, its beginning, its end, or a part.
#[derive(Clone, Copy)]
enum Written {
    Whole(&'static str),
    Begin(&'static str),
    End(&'static str),
    Part(&'static str),
}

impl Written {
    fn is(self, text: &str) -> bool {
        match self {
            Written::Whole(whole) => text == whole,
            Written::Begin(begin) => text.starts_with(begin),
            Written::End(end) => text.ends_with(end),
            Written::Part(part) => text.contains(part),
        }
    }
}

// A file, the words before it on a command line, the exit status, what is written, and what the file holds then.
struct Case {
    file: &'static str,
    words: &'static [&'static str],
    status: u8,
    written: Written,
    left: &'static str,
}

const NOSYMFOLLOW: &str = "t mkdir /a\nt mount plain /a ro,nosymfollow\n";

const WANTED: &str = "# one\nt ls / => ok a\n";

const RACE: &str = "t mkdir /d\nt fork\nt ls /\nt.1 mkdir /x\n";

const AGREEING: &str = "t mkdir /d\nt fork\nt.1 stat /d\nt stat /d\n";

const SECOND: &str =
    "#!/usr/bin/env -S vtree run --script 2\nt mkdir /a\nt mount plain /a ro,nosymfollow\n";

const TABLE: &str =
    "22 1 0:20 / / rw shared:1 - tmpfs a rw\n23 22 0:21 / /mnt ro shared:2 - tmpfs b rw\n";

static CASES: [Case; 20] = [
    Case {
        file: "t mkdir /d\nt ls /\n",
        words: &["vtree", "run"],
        status: 0,
        written: Written::Whole("1 ok\n2 ok d\n"),
        left: "t mkdir /d\nt ls /\n",
    },
    Case {
        file: NOSYMFOLLOW,
        words: &["vtree", "run"],
        status: 0,
        written: Written::Whole("1 ok\n2 deny 22 EINVAL S1\n"),
        left: NOSYMFOLLOW,
    },
    Case {
        file: NOSYMFOLLOW,
        words: &["vtree", "run", "--script", "2"],
        status: 0,
        written: Written::Whole("1 ok\n2 ok\n"),
        left: NOSYMFOLLOW,
    },
    Case {
        file: NOSYMFOLLOW,
        words: &["vtree", "check"],
        status: 1,
        written: Written::Begin("error[S1]"),
        left: NOSYMFOLLOW,
    },
    Case {
        file: NOSYMFOLLOW,
        words: &["vtree", "check", "--script", "2"],
        status: 0,
        written: Written::Whole(""),
        left: NOSYMFOLLOW,
    },
    Case {
        file: NOSYMFOLLOW,
        words: &["vtree", "test"],
        status: 1,
        written: Written::End("0 passed, 1 failed\n"),
        left: NOSYMFOLLOW,
    },
    Case {
        file: NOSYMFOLLOW,
        words: &["vtree", "test", "--script", "2"],
        status: 0,
        written: Written::Whole("1 passed, 0 failed\n"),
        left: NOSYMFOLLOW,
    },
    Case {
        file: NOSYMFOLLOW,
        words: &["vtree", "show", "--script", "2"],
        status: 0,
        written: Written::Part("ro,nosymfollow"),
        left: NOSYMFOLLOW,
    },
    Case {
        file: "t mkdri /d\n",
        words: &["vtree", "check"],
        status: 1,
        written: Written::Begin("error[S1]: no call `mkdri`\n"),
        left: "t mkdri /d\n",
    },
    Case {
        file: WANTED,
        words: &["vtree", "test"],
        status: 1,
        written: Written::End("0 passed, 1 failed\n"),
        left: WANTED,
    },
    Case {
        file: WANTED,
        words: &["vtree", "test", "--write"],
        status: 0,
        written: Written::End(": 1 answers written\n"),
        left: "# one\nt ls / => ok\n",
    },
    Case {
        file: SECOND,
        words: &["vtree", "check"],
        status: 0,
        written: Written::Whole(""),
        left: SECOND,
    },
    Case {
        file: SECOND,
        words: &["vtree", "run"],
        status: 0,
        written: Written::Whole("2 ok\n3 deny 22 EINVAL S1\n"),
        left: SECOND,
    },
    Case {
        file: SECOND,
        words: &["vtree", "show", "--at", "4"],
        status: 1,
        written: Written::Whole(""),
        left: SECOND,
    },
    Case {
        file: RACE,
        words: &["vtree", "turns", "--all"],
        status: 1,
        written: Written::End(
            ": 2 orders, 2 outcomes\n2 were tried\n2 left out, where a line comes before its task is born\n\n\
             OUTCOME 1 of 1 order\n3: t ls / => ok d\norder: 1 2 3 4\nschedule: t t t t t.1 t.1\n\n\
             OUTCOME 2 of 1 order\n3: t ls / => ok d x\norder: 1 2 4 3\nschedule: t t t t.1 t.1 t\n",
        ),
        left: RACE,
    },
    Case {
        file: RACE,
        words: &["vtree", "turns", "--all", "--most", "1"],
        status: 2,
        written: Written::Whole(""),
        left: RACE,
    },
    Case {
        file: RACE,
        words: &["vtree", "turns", "--all", "--unborn"],
        status: 1,
        written: Written::Part(": 4 orders, "),
        left: RACE,
    },
    Case {
        file: AGREEING,
        words: &["vtree", "turns", "--all", "--format", "json"],
        status: 0,
        written: Written::Part("\"orders\":2,\"outcomes\":1,\"script\""),
        left: AGREEING,
    },
    Case {
        file: TABLE,
        words: &["vtree", "from", "mountinfo", "--check"],
        status: 0,
        written: Written::End(":\nequal\n"),
        left: TABLE,
    },
    Case {
        file: "{}",
        words: &["vtree", "from", "oci"],
        status: 1,
        written: Written::Whole(""),
        left: "{}",
    },
];

// The exit status of a command that is given a file, and what it writes.
fn ended(rt: &HostRuntime, words: &[&str], file: &str) -> Result<(u8, Vec<u8>), Fail> {
    let mut output = Vec::new(rt.alloc());
    let mut words = owned(rt.alloc(), words)?;
    words.push(file.to_string(rt.alloc())?)?;
    let outcome = obey::<NoExplainer, _, _>(rt, words.as_slice(), Pace::Lines, &mut output);
    Ok((status(&outcome), output))
}

// Whether a case comes out as it is wanted.
fn is_as_wanted(rt: &HostRuntime, case: &Case, file: &str) -> Result<bool, Fail> {
    fs::write(rt, file, case.file)?;
    let (code, output) = ended(rt, case.words, file)?;
    let left = fs::read_to_string(rt, file)?;
    fs::remove_file(rt, file)?;
    let text = str::from_utf8(output.as_slice()).unwrap_or_default();
    Ok(code == case.status && case.written.is(text) && left.as_str() == case.left)
}

#[test]
fn commands_write_what_they_find(rt: HostRuntime) -> Result<(), Fail> {
    let folder = env::temp_dir(&rt)?;
    let file = format!(in rt.alloc(); "{}/vtree-test-of-commands.vt", folder.as_str())?;
    for (index, case) in CASES.iter().enumerate() {
        let is_wanted = is_as_wanted(&rt, case, file.as_str())?;
        assert!(rt; is_wanted, "case {index}");
    }
    Ok(())
}

#[test]
fn answers_that_cannot_be_written_are_a_fault(rt: HostRuntime) -> Result<(), Fail> {
    let alloc = rt.alloc();
    let folder = env::temp_dir(&rt)?;
    let file = format!(in alloc; "{}/vtree-test-of-writes.vt", folder.as_str())?;
    fs::write(&rt, file.as_str(), "t ls /\n")?;
    let mut full = File::create(&rt, "/dev/full")?;
    let outcome = obey::<NoExplainer, _, _>(
        &rt,
        owned(alloc, &["vtree", "run", file.as_str()])?.as_slice(),
        Pace::Blocks,
        &mut full,
    );
    fs::remove_file(&rt, file.as_str())?;
    assert_eq!(rt; status(&outcome), 1);
    let said = outcome.expect_err(&rt, "no fault").to_string(alloc)?;
    assert!(rt;
        said.starts_with("cannot write the answers: No space left on device (os error 28)")
    );
    Ok(())
}

// An environment whose words are these bytes.
#[derive(Clone, Copy)]
struct Words(&'static [&'static [u8]]);

impl Env for Words {
    fn arg(&self, i: usize, buf: &mut [u8]) -> Result<usize, FillError> {
        let Some(word) = self.0.get(i) else {
            return Err(FillError::NotPresent);
        };
        let Some(front) = buf.get_mut(..word.len()) else {
            return Err(FillError::TooLong);
        };
        front.copy_from_slice(word);
        Ok(word.len())
    }

    fn var(&self, _name: &str, _buf: &mut [u8]) -> Result<usize, FillError> {
        Err(FillError::NotPresent)
    }

    fn var_at(&self, _i: usize, _buf: &mut [u8]) -> Result<usize, FillError> {
        Err(FillError::NotPresent)
    }
}

#[test]
fn a_word_that_is_not_utf_8_is_told_so(rt: HostRuntime) -> Result<(), Fail> {
    let given = Words(&[b"vtree", b"run", b"\xff"]);
    let fault = words(&(given, rt.alloc())).expect_err(&rt, "no fault");
    assert!(rt; matches!(&fault, Fault::Words(_)));
    let said = fault.to_string(rt.alloc())?;
    assert!(rt;
        said.starts_with(
            "a word is not UTF-8; a script with such a name is given as `vtree run - < FILE`"
        )
    );
    Ok(())
}
