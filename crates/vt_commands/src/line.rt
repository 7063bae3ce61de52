//! The command line: what each command takes, as tables.
use clap::{Arg, ArgAction, Command};
use std::alloc::{AllocError, Global};

/// The version of the program and of what a script may say.
pub const VERSION: &str = "0.4.0";

const ABOUT: &str =
    "Answers calls on a file tree as Linux would, and names the rule that refuses a call";

const STATUSES: &str = "Exit status:
  0  all is well; of run: all was read and answered, denials included
  1  something was found, a file cannot be read or written, or there was no memory at the start
  2  the command line is invalid, or asks for help or the version; of turns: too many orders";

// How an argument is written.
#[derive(Clone, Copy)]
enum Form {
    /// `-W`
    Letter(char),
    /// `-o SCRIPT`
    LetterWord(char, &'static str),
    /// `--write`
    Flag,
    /// `--at LINE`
    Word(&'static str),
    /// `--task NAME=FILE`, any number of times.
    Words(&'static str),
    /// `--format FORM`, one of some words; the first where it is left out.
    OneOf(&'static str, &'static [&'static str]),
    /// `--script VERSION`, one of some words, or left out.
    OneOrNone(&'static str, &'static [&'static str]),
    /// `KIND`, one of some words.
    Choice(&'static [&'static str]),
    /// `[NAME]`
    Optional,
    /// `FILE`
    Required,
    /// `FILE..`
    Several,
}

// What a command takes, by the name under which it is read.
#[derive(Clone, Copy)]
struct Argument {
    name: &'static str,
    form: Form,
    help: &'static str,
}

// A command, and what it takes.
#[derive(Clone, Copy)]
struct Taking {
    name: &'static str,
    about: &'static str,
    arguments: &'static [Argument],
}

const FILE: Argument = Argument {
    name: "FILE",
    form: Form::Required,
    help: "The script, one call of a task a line; - is standard input",
};

const FILES: Argument = Argument {
    name: "FILE",
    form: Form::Several,
    help: "The scripts, or folders of which all .vt files are taken; - is standard input",
};

const RUN_SCRIPT: Argument = Argument {
    name: "script",
    form: Form::OneOf("VERSION", &["1", "2"]),
    help: "The version of the scripts' language; 2 has pivot_root and nosymfollow too",
};

const SCRIPT: Argument = Argument {
    name: "script",
    form: Form::OneOrNone("VERSION", &["1", "2"]),
    help: "The version of the scripts' language; else that of a first line `#!.. --script 2`, or 1",
};

const TEXT_OR_JSON: Argument = Argument {
    name: "format",
    form: Form::OneOf("FORM", &["text", "json"]),
    help: FORMAT,
};

const FORMAT: &str = "The form of what is written; json is one object a line";

static COMMANDS: [Taking; 9] = [
    Taking {
        name: "run",
        about: "Answers each line of a script",
        arguments: &[
            RUN_SCRIPT,
            Argument {
                name: "format",
                form: Form::OneOf("FORM", &["text", "jsonl"]),
                help: "The form of the answers; jsonl is an object for each line that is answered",
            },
            FILE,
        ],
    },
    Taking {
        name: "check",
        about: "Tells what is wrong with the lines of scripts, and runs nothing",
        arguments: &[
            Argument {
                name: "warnings",
                form: Form::Letter('W'),
                help: "Warnings are errors",
            },
            Argument {
                name: "most",
                form: Form::Word("N"),
                help: "The most findings of a file that are shown, or all; 50 where it is left out",
            },
            SCRIPT,
            TEXT_OR_JSON,
            FILES,
        ],
    },
    Taking {
        name: "test",
        about: "Runs scripts that hold the answers that they want, and compares",
        arguments: &[
            Argument {
                name: "write",
                form: Form::Flag,
                help: "Puts the given answers into the files",
            },
            Argument {
                name: "verbose",
                form: Form::Letter('v'),
                help: "Shows for each file how many scripts pass",
            },
            SCRIPT,
            Argument {
                name: "format",
                form: Form::OneOf("FORM", &["text", "json", "junit"]),
                help: FORMAT,
            },
            FILES,
        ],
    },
    Taking {
        name: "show",
        about: "Shows tasks, mounts, peer groups and trees as they are at a line of a script",
        arguments: &[
            Argument {
                name: "at",
                form: Form::Word("LINE"),
                help: "Before this line is answered; after all lines where it is left out",
            },
            Argument {
                name: "task",
                form: Form::Word("TASK"),
                help: "This task alone, with the mounts of its namespace",
            },
            Argument {
                name: "files",
                form: Form::Flag,
                help: "The trees of the filesystems too",
            },
            SCRIPT,
            Argument {
                name: "format",
                form: Form::OneOf("FORM", &["text", "json", "dot", "mermaid"]),
                help: FORMAT,
            },
            FILE,
        ],
    },
    Taking {
        name: "explain",
        about: "Explains why a line of a script is answered as it is",
        arguments: &[
            SCRIPT,
            TEXT_OR_JSON,
            FILE,
            Argument {
                name: "LINE",
                form: Form::Required,
                help: "The number of the line, from 1",
            },
        ],
    },
    Taking {
        name: "turns",
        about: "Answers a script in the order of a schedule, or tries every order of its lines",
        arguments: &[
            Argument {
                name: "all",
                form: Form::Flag,
                help: "Tries every order that keeps the order of each task's lines, and tells which answers differ",
            },
            Argument {
                name: "unborn",
                form: Form::Flag,
                help: "Orders too in which a line comes before its task is born",
            },
            Argument {
                name: "most",
                form: Form::Word("N"),
                help: "The most orders that are tried; 100000 where it is left out",
            },
            SCRIPT,
            TEXT_OR_JSON,
            FILE,
            Argument {
                name: "SCHEDULE",
                form: Form::Optional,
                help: "The order of turns, a task or ! a line; left out with --all",
            },
        ],
    },
    Taking {
        name: "from",
        about: "Makes a script of a table of mounts, a container's configuration, or a trace of calls",
        arguments: &[
            Argument {
                name: "task",
                form: Form::Words("NAME=FILE"),
                help: "Of mountinfo: the table of a further task; any number of times",
            },
            Argument {
                name: "output",
                form: Form::LetterWord('o', "SCRIPT"),
                help: "The file that becomes the script; the standard output where it is left out",
            },
            Argument {
                name: "check",
                form: Form::Flag,
                help: "Of mountinfo: runs the script, and shows how its mounts differ from the tables",
            },
            Argument {
                name: "files",
                form: Form::Flag,
                help: "Of strace: makes first the files and directories that the calls find",
            },
            Argument {
                name: "KIND",
                form: Form::Choice(&["mountinfo", "oci", "strace"]),
                help: "What FILE holds: /proc/PID/mountinfo, the config.json of an OCI bundle, or what strace -f writes",
            },
            Argument {
                name: "FILE",
                form: Form::Required,
                help: "The table, configuration or trace; - is standard input",
            },
        ],
    },
    Taking {
        name: "rules",
        about: "Explains the rules that refuse calls",
        arguments: &[
            Argument {
                name: "markdown",
                form: Form::Flag,
                help: "All rules as a page of the documentation",
            },
            Argument {
                name: "WORD",
                form: Form::Optional,
                help: "A rule, the name of an error, or a call; all rules where it is left out",
            },
        ],
    },
    Taking {
        name: "new",
        about: "Writes an example as a script that holds the answers that it wants",
        arguments: &[Argument {
            name: "NAME",
            form: Form::Optional,
            help: "The example, which becomes the file NAME.vt; all are listed where it is left out",
        }],
    },
];

// An argument as clap has it, by its name and its help alone. Each form begins by it: an `Arg` that is there before the
// forms are told apart costs the proof of each.
fn named<'a>(alloc: Global, argument: &Argument) -> Arg<'a> {
    Arg::new(alloc, argument.name).help(argument.help)
}

// An argument, as clap has it.
fn argument_of<'a>(alloc: Global, argument: &Argument) -> Arg<'a> {
    let name = argument.name;
    match argument.form {
        Form::Letter(letter) => named(alloc, argument)
            .short(letter)
            .action(ArgAction::SetTrue),
        Form::LetterWord(letter, word) => named(alloc, argument).short(letter).value_name(word),
        Form::Flag => named(alloc, argument).long(name).action(ArgAction::SetTrue),
        Form::Word(word) => named(alloc, argument).long(name).value_name(word),
        Form::Words(word) => named(alloc, argument)
            .long(name)
            .value_name(word)
            .action(ArgAction::Append),
        Form::OneOf(word, words) => {
            let first = words.first().copied().unwrap_or_default();
            named(alloc, argument)
                .long(name)
                .value_name(word)
                .value_parser(words)
                .default_value(first)
        }
        Form::OneOrNone(word, words) => named(alloc, argument)
            .long(name)
            .value_name(word)
            .value_parser(words),
        Form::Choice(words) => named(alloc, argument).value_parser(words).required(true),
        Form::Optional => named(alloc, argument),
        Form::Required => named(alloc, argument).required(true),
        Form::Several => named(alloc, argument).required(true).num_args(1..),
    }
}

// A command, as clap has it.
fn command_of<'a>(alloc: Global, taking: &Taking) -> Result<Command<'a>, AllocError> {
    let mut command = Command::new(alloc, taking.name).about(taking.about);
    for argument in taking.arguments {
        command = command.arg(argument_of(alloc, argument))?;
    }
    Ok(command)
}

// The commands, in the order in which help has them. The table is named here alone: each name of it costs its whole proof.
fn all_commands() -> &'static [Taking] {
    &COMMANDS
}

// The program as clap has it, without its commands.
fn program<'a>(alloc: Global) -> Command<'a> {
    Command::new(alloc, "vtree")
        .version(VERSION)
        .about(ABOUT)
        .after_help(STATUSES)
        .subcommand_required(true)
        .arg_required_else_help(true)
}

/// The command line.
pub fn command_line<'a>(alloc: Global) -> Result<Command<'a>, AllocError> {
    let mut commands = Vec::new(alloc);
    for taking in all_commands() {
        commands.push(command_of(alloc, taking)?)?;
    }
    program(alloc).subcommands(commands)
}
