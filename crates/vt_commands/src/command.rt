//! The words that the program was started with, the command that they give, and what they ask of it.
ghost use Rattle.std.specs.Prelude.{◌≡◌, IfErr};
ghost use Rattle.vt_run.specs.Status.{IsOfWords};

use crate::explaining::LineAsked;
use crate::line::command_line;
use crate::turning::OrdersAsked;
use clap::error::ErrorKind;
use clap::{ArgMatches, Error};
use std::alloc::{AllocError, Global};
use std::rt::Env;
use std::{env, io};
use vt_answering::{Form, ScriptAsked};
use vt_check::check;
use vt_check::draft::Draft;
use vt_check::report::MOST_SHOWN;
use vt_converting::{Conversion, Kind};
use vt_orders::report;
use vt_playing::ScheduleAsked;
use vt_run::fault::Fault;
use vt_script::{RunFault, Version};
use vt_show::show;
use vt_showing::WorldAsked;
use vt_test::test;
use vt_working::{Job, Work};

const NO_LINE: &str = "`--at` takes the number of a line, from 1";

const NO_NUMBER: &str = "LINE is the number of a line, from 1";

const NO_INPUT: &str = "`--write` takes files, and not the standard input";

const NO_MOST: &str = "`--most` takes a number of orders";

const NO_MOST_SHOWN: &str = "`--most` takes a number of findings, or `all`";

const NO_SCHEDULE: &str = "`turns` takes a schedule, or `--all`";

const ALL_OR_SCHEDULE: &str = "`turns` takes a schedule or `--all`, and not both";

const OF_ALL: &str = "`--unborn`, `--most` and `--format json` are of `--all` alone";

const NO_TASK: &str = "`--task` takes NAME=FILE, the table of mounts of a further task";

const OF_TABLES: &str = "`--task` and `--check` are of `mountinfo` alone";

const OF_TRACES: &str = "`--files` is of `strace` alone";

// The most orders of a script that are tried, where no other number is asked for.
const MOST_ORDERS: u64 = 100_000;

const NOT_UTF_8: &str =
    "a word is not UTF-8; a script with such a name is given as `vtree run - < FILE`";

// The commands. Their names are told apart in one place, where nothing else is at hand.
#[derive(Clone, Copy)]
enum CommandName {
    Run,
    Check,
    Test,
    Show,
    Explain,
    Turns,
    From,
    New,
    Rules,
}

/// What the words ask for, read before a file is opened: what obeys it sees no words, and has no fault of theirs.
#[derive(Clone, Copy)]
pub enum Order<'a, 'm> {
    /// The script in this file is answered.
    Run(ScriptAsked<'a>),
    /// Something is done with each of these files.
    Work(&'m [&'a str], Work),
    /// A world of this file is shown.
    Show(&'a str, WorldAsked<'a>),
    /// A line of this file is explained.
    Explain(&'a str, LineAsked),
    /// Every order of the lines of this file's scripts is tried.
    Turns(&'a str, OrdersAsked),
    /// This file's script is answered in the order of a schedule.
    Play(&'a str, ScheduleAsked<'a>),
    /// What a file of a system holds becomes a script.
    From(Conversion<'a, 'm>),
    /// The example of this name is written, or all are listed.
    New(Option<&'a str>),
    /// The rules of this word are told, or all, or all as a page.
    Rules { word: Option<&'a str>, page: bool },
}

/// The words that the program was started with, its own name first.
///
/// `Words`: one of them is not UTF-8. `Run` with `Memory`: an allocation failed.
pub fn words<R: Env + AllocGlobal>(rt: &R) -> Result<Vec<String>, Fault>
    ensures { IfErr result IsOfWords }
{
    let alloc = rt.alloc();
    match env::args(rt) {
        Ok(words) => match words.collect(alloc) {
            Ok(words) => Ok(words),
            Err(_) => Err(Fault::Run(RunFault::Memory)),
        },
        Err(error) if error.kind() == io::ErrorKind::OutOfMemory => {
            Err(Fault::Run(RunFault::Memory))
        }
        Err(_) => Err(refusal(alloc, NOT_UTF_8)),
    }
}

// The words are refused, and this is why.
fn refusal(alloc: Global, why: &str) -> Fault
    ensures { IsOfWords result }
{
    match String::from_str(alloc, why) {
        Ok(why) => Fault::Words(why),
        Err(_) => Fault::Run(RunFault::Memory),
    }
}

// The first paragraph of the error as one line, where all that is missing is named, and what is like the words.
fn in_one_line(alloc: Global, text: &str) -> Result<String, AllocError> {
    let mut line = Draft::new(alloc);
    let mut ended = false;
    for part in text.lines() {
        let part = part.trim();
        ended |= part.is_empty();
        match part.strip_prefix("tip: ") {
            Some(tip) => push_part(&mut line, "; ", tip),
            None if !ended => push_part(&mut line, " ", part),
            None => {}
        }
    }
    line.end()
}

// Appends a part behind those before it.
fn push_part(line: &mut Draft, between: &str, part: &str) {
    if line.len() > 0 {
        line.push(between);
    }
    line.push(part);
}

// The words are refused by clap, whose text this is.
fn clap_refusal(alloc: Global, text: &str) -> Fault
    ensures { IsOfWords result }
{
    match in_one_line(alloc, text.strip_prefix("error: ").unwrap_or(text)) {
        Ok(why) => Fault::Words(why),
        Err(_) => Fault::Run(RunFault::Memory),
    }
}

// What the words are refused for, in one line, or the help that they ask for.
fn refused(alloc: Global, error: &Error) -> Fault
    ensures { IsOfWords result }
{
    match (error.kind(), format!(in alloc; "{error}")) {
        (ErrorKind::OutOfMemory, _) | (_, Err(_)) => Fault::Run(RunFault::Memory),
        (
            ErrorKind::DisplayHelp
            | ErrorKind::DisplayVersion
            | ErrorKind::DisplayHelpOnMissingArgumentOrSubcommand,
            Ok(text),
        ) => Fault::Help(text),
        (_, Ok(text)) => clap_refusal(alloc, text.as_str()),
    }
}

// The file that a command is given.
fn file_of<'a>(given: &ArgMatches<'a>) -> &'a str {
    given.get_str("FILE").unwrap_or_default()
}

// The files that a command is given.
fn files_of<'a, 'm>(given: &'m ArgMatches<'a>) -> &'m [&'a str] {
    given.get_strs("FILE").unwrap_or_default()
}

// The version of the scripts' language that is asked for, if one is.
fn version_asked(given: &ArgMatches<'_>) -> Option<Version> {
    match given.get_str("script")? {
        "2" => Some(Version::Two),
        _ => Some(Version::One),
    }
}

// Whether JSON is asked for, or else text.
fn form_asked(given: &ArgMatches<'_>) -> check::Format {
    match given.get_str("format") {
        Some("json") => check::Format::Json,
        _ => check::Format::Text,
    }
}

// What is done with each of the files.
fn work_order<'a, 'm>(given: &'m ArgMatches<'a>, job: Job) -> Order<'a, 'm> {
    let version = version_asked(given);
    Order::Work(files_of(given), Work { version, job })
}

// The most findings that are asked for, if the word is a number or `all`.
fn most_shown(word: Option<&str>) -> Option<usize> {
    match word {
        None => Some(MOST_SHOWN),
        Some("all") => Some(usize::MAX),
        Some(word) => word.parse::<usize>().ok(),
    }
}

// What `vtree run` is asked for.
fn run_order<'a, 'm>(given: &ArgMatches<'a>) -> Order<'a, 'm> {
    let form = match given.get_str("format") {
        Some("jsonl") => Form::Objects,
        _ => Form::Text,
    };
    Order::Run(ScriptAsked {
        version: version_asked(given).unwrap_or(Version::One),
        file: file_of(given),
        form,
    })
}

// What `vtree check` is asked for.
fn check_order<'a, 'm>(alloc: Global, given: &'m ArgMatches<'a>) -> Result<Order<'a, 'm>, Fault>
    ensures { IfErr result IsOfWords }
{
    let Some(most) = most_shown(given.get_str("most")) else {
        return Err(refusal(alloc, NO_MOST_SHOWN));
    };
    let job = Job::Check {
        format: form_asked(given),
        strict: given.get_flag("warnings"),
        most,
    };
    Ok(work_order(given, job))
}

// What `vtree test` is asked for.
fn test_order<'a, 'm>(alloc: Global, given: &'m ArgMatches<'a>) -> Result<Order<'a, 'm>, Fault>
    ensures { IfErr result IsOfWords }
{
    if given.get_flag("write") {
        if files_of(given).contains(&"-") {
            return Err(refusal(alloc, NO_INPUT));
        }
        return Ok(work_order(given, Job::Write));
    }
    let (format, tells_all) = match given.get_str("format") {
        Some("json") => (test::Format::Json, false),
        Some("junit") => (test::Format::Junit, false),
        _ => (test::Format::Text, given.get_flag("verbose")),
    };
    Ok(work_order(given, Job::Test { format, tells_all }))
}

// The number of a line, if the word is one.
fn line_number(word: &str) -> Option<u64> {
    match word.parse::<u64>() {
        Ok(line) if line > 0 => Some(line),
        _ => None,
    }
}

// What `vtree explain` is asked for.
fn explain_order<'a, 'm>(alloc: Global, given: &ArgMatches<'a>) -> Result<Order<'a, 'm>, Fault>
    ensures { IfErr result IsOfWords }
{
    let Some(line) = line_number(given.get_str("LINE").unwrap_or_default()) else {
        return Err(refusal(alloc, NO_NUMBER));
    };
    let asked = LineAsked {
        version: version_asked(given),
        line,
        format: form_asked(given),
    };
    Ok(Order::Explain(file_of(given), asked))
}

// What `vtree show` is asked for.
fn show_order<'a, 'm>(alloc: Global, given: &ArgMatches<'a>) -> Result<Order<'a, 'm>, Fault>
    ensures { IfErr result IsOfWords }
{
    let line = given.get_str("at").map(line_number);
    if line == Some(None) {
        return Err(refusal(alloc, NO_LINE));
    }
    let format = match given.get_str("format") {
        Some("json") => show::Format::Json,
        Some("dot") => show::Format::Dot,
        Some("mermaid") => show::Format::Mermaid,
        _ => show::Format::Text,
    };
    let asked = WorldAsked {
        version: version_asked(given),
        line: line.flatten(),
        options: show::Options {
            format,
            files: given.get_flag("files"),
            task: given.get_str("task"),
        },
    };
    Ok(Order::Show(file_of(given), asked))
}

// What `vtree turns` is asked for.
fn turns_order<'a, 'm>(alloc: Global, given: &ArgMatches<'a>) -> Result<Order<'a, 'm>, Fault>
    ensures { IfErr result IsOfWords }
{
    match (given.get_flag("all"), given.get_str("SCHEDULE")) {
        (true, None) => orders_order(alloc, given),
        (false, Some(schedule)) => schedule_order(alloc, given, schedule),
        (true, Some(_)) => Err(refusal(alloc, ALL_OR_SCHEDULE)),
        (false, None) => Err(refusal(alloc, NO_SCHEDULE)),
    }
}

// What `vtree turns` is asked for with a schedule.
fn schedule_order<'a, 'm>(
    alloc: Global,
    given: &ArgMatches<'a>,
    schedule: &'a str,
) -> Result<Order<'a, 'm>, Fault>
    ensures { IfErr result IsOfWords }
{
    let is_json = given.get_str("format") == Some("json");
    if is_json || given.get_flag("unborn") || given.get_str("most").is_some() {
        return Err(refusal(alloc, OF_ALL));
    }
    let asked = ScheduleAsked {
        version: version_asked(given),
        schedule,
    };
    Ok(Order::Play(file_of(given), asked))
}

// What `vtree turns --all` is asked for.
fn orders_order<'a, 'm>(alloc: Global, given: &ArgMatches<'a>) -> Result<Order<'a, 'm>, Fault>
    ensures { IfErr result IsOfWords }
{
    let most = match given.get_str("most") {
        Some(word) => word.parse::<u64>().ok(),
        None => Some(MOST_ORDERS),
    };
    let Some(most) = most else {
        return Err(refusal(alloc, NO_MOST));
    };
    let asked = OrdersAsked {
        version: version_asked(given),
        options: report::Options {
            format: form_asked(given),
            unborn: given.get_flag("unborn"),
            most,
        },
    };
    Ok(Order::Turns(file_of(given), asked))
}

// Whether each of the words has the form NAME=FILE.
fn are_tasks(words: &[&str]) -> bool {
    for word in words {
        if !word.contains('=') {
            return false;
        }
    }
    true
}

// What `vtree from` is asked for.
fn from_order<'a, 'm>(alloc: Global, given: &'m ArgMatches<'a>) -> Result<Order<'a, 'm>, Fault>
    ensures { IfErr result IsOfWords }
{
    let tasks = given.get_strs("task").unwrap_or_default();
    if !are_tasks(tasks) {
        return Err(refusal(alloc, NO_TASK));
    }
    let checks = given.get_flag("check");
    let kind = match given.get_str("KIND") {
        Some("oci") => Kind::Oci,
        Some("strace") => Kind::Strace {
            files: given.get_flag("files"),
        },
        _ => Kind::Mountinfo { checks },
    };
    let is_of_tables = matches!(kind, Kind::Mountinfo { .. });
    if !is_of_tables && (checks || !tasks.is_empty()) {
        return Err(refusal(alloc, OF_TABLES));
    }
    if !matches!(kind, Kind::Strace { .. }) && given.get_flag("files") {
        return Err(refusal(alloc, OF_TRACES));
    }
    Ok(Order::From(Conversion {
        kind,
        file: file_of(given),
        tasks,
        script: given.get_str("output"),
    }))
}

// The words, read by clap as those of a command.
fn parsed<'a>(alloc: Global, words: &'a [String]) -> Result<ArgMatches<'a>, Error> {
    command_line(alloc)?.try_get_matches_from(words)
}

/// The words, read as those of a command.
///
/// `Words`: they are not those of a command. `Help`: they ask for help or the version. `Run` with
/// `Memory`: an allocation failed.
pub fn matches_of<'a>(alloc: Global, words: &'a [String]) -> Result<ArgMatches<'a>, Fault>
    ensures { IfErr result IsOfWords }
{
    match parsed(alloc, words) {
        Ok(matches) => Ok(matches),
        Err(error) => Err(refused(alloc, &error)),
    }
}

// The command of this name.
fn command_named(name: &str) -> Option<CommandName> {
    match name {
        "run" => Some(CommandName::Run),
        "check" => Some(CommandName::Check),
        "test" => Some(CommandName::Test),
        "show" => Some(CommandName::Show),
        "explain" => Some(CommandName::Explain),
        "turns" => Some(CommandName::Turns),
        "from" => Some(CommandName::From),
        "new" => Some(CommandName::New),
        "rules" => Some(CommandName::Rules),
        _ => None,
    }
}

/// What the words ask for.
///
/// `Words`: they are not those of a command. `Run` with `Memory`: an allocation failed.
pub fn order_of<'a, 'm>(alloc: Global, matches: &'m ArgMatches<'a>) -> Result<Order<'a, 'm>, Fault>
    ensures { IfErr result IsOfWords }
{
    let Some((name, given)) = matches.subcommand() else {
        return Err(Fault::Words(String::new(alloc)));
    };
    match command_named(name) {
        Some(CommandName::Run) => Ok(run_order(given)),
        Some(CommandName::Check) => check_order(alloc, given),
        Some(CommandName::Test) => test_order(alloc, given),
        Some(CommandName::Show) => show_order(alloc, given),
        Some(CommandName::Explain) => explain_order(alloc, given),
        Some(CommandName::Turns) => turns_order(alloc, given),
        Some(CommandName::From) => from_order(alloc, given),
        Some(CommandName::New) => Ok(Order::New(given.get_str("NAME"))),
        Some(CommandName::Rules) => Ok(Order::Rules {
            word: given.get_str("WORD"),
            page: given.get_flag("markdown"),
        }),
        None => Err(Fault::Words(String::new(alloc))),
    }
}
