//! The words of the command line.

ghost use Rattle.std.specs.Prelude.{◌≡◌, true, false, IfOk};
ghost use Rattle.txs_cli_args.specs.Asked.{ExplainsScripts, OfScripts};

use crate::{Explain, Exploring, Input, Request, RunOptions, Scheduling, Showing};
use clap::error::ErrorKind;
use clap::{Arg, ArgAction, ArgMatches, Command, Error, value_parser};
use std::alloc::{AllocError, Global};

/// How many steps an actor makes at most, where the words don't say it.
const DEFAULT_STEPS: u64 = 100_000_000;

/// How many steps an actor makes at most where outcomes are looked for, and the words don't say it.
const EXPLORED_STEPS: u64 = 1_000_000;

/// How many asks a search makes at most, where the words don't say it.
const DEFAULT_LIMIT: u64 = 1_000_000;

/// How many workers there are, where the words don't say it.
const DEFAULT_WORKERS: u64 = 4;

/// What `--version` says behind the program's name: with the kit that the sources are for. A checked program is made of the same sources, and says the
/// same; so this says nothing of proofs.
const VERSION: &str =
    "0.1.0 (a profile of Clojure 1.11; byte forms TXS1 and TXS2; for rattle-kit-13f)";

/// What stands below each text of help: what the statuses say, of which the highest that applies counts.
const STATUSES: &str = "Statuses, of which the highest that applies counts:
  0  all went well
  1  the script or the code is refused
  2  the arguments can't be used, or a file or a stream can't be read or written
  3  a thread or an agent failed
  4  steps, memory or the journal didn't suffice, or an audit differs";

/// How an option is written, and what it takes.
enum Kind {
    /// A word that stands by itself.
    File,
    /// A flag: it is there or isn't.
    Flag,
    /// A flag that excludes this other one.
    Without(&'static str),
    /// The name of a file, which excludes these other ones.
    Apart(&'static [&'static str]),
    /// A flag, or one of `WHEN` with a `=` before it.
    When,
    /// A flag, or one of `FORMS` with a `=` before it.
    Form,
    /// A text.
    Text,
    /// The name of a file, which has to be there.
    Out,
    /// The name of a folder.
    Folder,
    /// A number from 1 to this one.
    Number(i64),
}

/// An option of a command: its name, its text of help, and how it is written.
type Opt = (&'static str, &'static str, Kind);

/// The file of a command.
const FILE: Opt = ("FILE", "The script; without it, standard input", Kind::File);

/// When a command explains what it complains of, as words.
static WHEN: [&str; 3] = ["always", "never", "auto"];

/// The forms in which events are printed, as words.
static FORMS: [&str; 2] = ["short", "full"];

/// The option of when a command explains what it complains of.
const EXPLAIN: Opt = (
    "explain",
    "When to show where a refusal, fault or stop is, and what to do: `always` (also without WHEN), `never`, or `auto`: if standard error is a terminal; else auto",
    Kind::When,
);

/// The flag by which a command takes code in place of a script.
const CODE: Opt = (
    "code",
    "Takes the byte form of code, as `build` writes it; not with --explain",
    Kind::Flag,
);

/// The option of which file is written.
const OUT: Opt = (
    "out",
    "The file that the byte form of the code is written to",
    Kind::Out,
);

/// The option of how many workers run a script or code.
const WORKERS: Opt = (
    "workers",
    "How many workers run the threads at once, from 1 to 64; else 4",
    Kind::Number(64),
);

/// The option of which threads go on first.
const TURNS: Opt = (
    "turns",
    "Which threads and agents run first, by their numbers, as 0,1,t0x3; `t` is for one step, `xN` for N times",
    Kind::Text,
);

/// The option of which file has the list of `TURNS`.
const TURNS_FROM: Opt = (
    "turns-from",
    "The file that has the list of --turns, as `run --record` writes it; `-` for standard input",
    Kind::Apart(&["turns"]),
);

/// The option of which file a run is recorded in.
const RECORD: Opt = (
    "record",
    "Writes to this file the list of turns by which `schedule --turns-from` makes the run again; not with --audit or --code",
    Kind::Apart(&["audit", "code", "timeline", "json"]),
);

/// The option of how many steps an actor makes.
const STEPS: Opt = (
    "steps",
    "How many steps each thread and each agent makes at most, from 1 to 1,000,000,000,000; else 100,000,000",
    Kind::Number(1_000_000_000_000),
);

/// The flag by which a command prints the cells.
const CELLS: Opt = (
    "cells",
    "Prints each ref, atom and agent with its newest value",
    Kind::Flag,
);

/// The option of in which form a command prints the events.
const EVENTS: Opt = (
    "events",
    "Prints each event: `short` (also without FORM), those of the journal; or `full`, those of atoms too, with all their parts, in the order of the run; `full` not with --record or --code",
    Kind::Form,
);

/// The option of which file gets the picture of a run.
const TIMELINE: Opt = (
    "timeline",
    "Writes to this file a picture of the run, as SVG; not with --record or --code",
    Kind::Apart(&["code"]),
);

/// The option of which folder gets the pictures of all outcomes.
const TIMELINES: Opt = (
    "timeline",
    "Writes to this folder a picture of each outcome's run, as outcome-1.svg and so on",
    Kind::Folder,
);

/// The flag by which a run is told as lines of JSON.
const JSON: Opt = (
    "json",
    "Prints lines of JSON in place of all other output; not with --record or --code",
    Kind::Without("code"),
);

/// The flag by which a check is told as a line of JSON.
const JSON_CHECK: Opt = (
    "json",
    "Prints a line of JSON in place of all other output",
    Kind::Flag,
);

/// The flag by which a run is checked against its script.
const AUDIT: Opt = (
    "audit",
    "Checks the report of the run against the script, and prints what that gives; not with --code",
    Kind::Without("code"),
);

/// The option of how many asks a search makes.
const LIMIT: Opt = (
    "limit",
    "How many requests a search makes at most, from 1 to 1,000,000,000,000; else 1,000,000",
    Kind::Number(1_000_000_000_000),
);

/// The option of how many steps an actor makes in each schedule.
const STEPS_EACH: Opt = (
    "steps",
    "How many steps each thread and each agent makes at most, from 1 to 1,000,000,000,000; else 1,000,000",
    Kind::Number(1_000_000_000_000),
);

/// The flag by which there is to be one outcome alone.
const SAME: Opt = (
    "same",
    "Ends with status 3 if there are several outcomes",
    Kind::Flag,
);

/// The flag by which the run of each outcome is checked against the script.
const AUDIT_EACH: Opt = (
    "audit",
    "Checks the report of each outcome's run against the script, and prints what that gives",
    Kind::Flag,
);

/// A command: its name, what it does, and its options.
type Row = (&'static str, &'static str, &'static [Opt]);

/// The commands.
static COMMANDS: [Row; 6] = [
    (
        "check",
        "Checks a script without running it",
        &[JSON_CHECK, EXPLAIN, FILE],
    ),
    ("dis", "Lists the code of a script", &[EXPLAIN, FILE, CODE]),
    (
        "build",
        "Writes the code of a script to a file",
        &[EXPLAIN, FILE, OUT],
    ),
    (
        "run",
        "Runs a script",
        &[
            WORKERS, STEPS, CELLS, EVENTS, TIMELINE, JSON, RECORD, AUDIT, CODE, EXPLAIN, FILE,
        ],
    ),
    (
        "schedule",
        "Runs a script by a schedule",
        &[
            TURNS, TURNS_FROM, STEPS, CELLS, EVENTS, TIMELINE, JSON, AUDIT, CODE, EXPLAIN, FILE,
        ],
    ),
    (
        "explore",
        "Lists all outcomes of a script, each with a schedule",
        &[
            LIMIT, STEPS_EACH, SAME, AUDIT_EACH, TIMELINES, EXPLAIN, FILE,
        ],
    ),
];

/// An option, as its row says.
fn option<'a>(alloc: Global, of: &Opt) -> Result<Arg<'a>, AllocError> {
    let arg = Arg::new(alloc, of.0).help(of.1);
    if let Kind::File = of.2 {
        return Ok(arg);
    }
    let arg = arg.long(of.0);
    match of.2 {
        Kind::Flag => Ok(arg.action(ArgAction::SetTrue)),
        Kind::Without(other) => arg.action(ArgAction::SetTrue).conflicts_with(other),
        Kind::When => Ok(
            one_of(arg.value_name("WHEN"))
                .default_missing_value("always")
                .value_parser(WHEN.as_slice()),
        ),
        Kind::Form => Ok(
            one_of(arg.value_name("FORM"))
                .default_missing_value("short")
                .value_parser(FORMS.as_slice()),
        ),
        Kind::Apart(others) => apart(arg.value_name("F"), others),
        Kind::Out => Ok(arg.value_name("F").required(true)),
        Kind::Folder => Ok(arg.value_name("DIR")),
        Kind::Number(most) => Ok(arg.value_parser(value_parser!(u64).range(1..=most))),
        _ => Ok(arg),
    }
}

/// An option that is a flag, or has a word of a few with a `=` before it, which its help names.
fn one_of<'a>(arg: Arg<'a>) -> Arg<'a> {
    arg.num_args(0..=1)
        .require_equals(true)
        .hide_possible_values(true)
}

/// An option that excludes these other ones.
fn apart<'a>(arg: Arg<'a>, others: &[&'static str]) -> Result<Arg<'a>, AllocError> {
    let mut arg = arg;
    for other in others {
        arg = arg.conflicts_with(other)?;
    }
    Ok(arg)
}

/// A command below the program, as its row says.
fn below<'a>(alloc: Global, row: &Row) -> Result<Command<'a>, AllocError> {
    let mut options = Vec::new(alloc);
    for of in row.2 {
        options.push(option(alloc, of)?)?;
    }
    Command::new(alloc, row.0)
        .about(row.1)
        .after_help(STATUSES)
        .args(options)
}

/// The commands below the program.
fn commands<'a>(alloc: Global) -> Result<Vec<Command<'a>>, AllocError> {
    let mut commands = Vec::new(alloc);
    for row in &COMMANDS {
        commands.push(below(alloc, row)?)?;
    }
    Ok(commands)
}

/// The program's command. Its name in help is given here, so that the words begin behind it.
fn command<'a>(alloc: Global) -> Result<Command<'a>, AllocError> {
    let commands = commands(alloc)?;
    Command::new(alloc, "txs")
        .about("Compiles and runs transaction scripts; `txs FILE` is `txs run FILE`")
        .version(VERSION)
        .after_help(STATUSES)
        .subcommand_required(true)
        .no_binary_name(true)
        .subcommands(commands)?
        .bin_name("txs")
}

/// What a run is told beside its input, by the words of its command.
fn options_of(words: &ArgMatches<'_>) -> RunOptions {
    RunOptions {
        steps: words.get_one::<u64>("steps").unwrap_or(DEFAULT_STEPS),
        cells: words.get_flag("cells"),
        events: words.get_str("events").unwrap_or("") == "short",
        audit: words.get_flag("audit"),
    }
}

/// How outcomes are looked for, by the words of the command.
fn exploring_of(words: &ArgMatches<'_>) -> Exploring {
    Exploring {
        asks: words.get_one::<u64>("limit").unwrap_or(DEFAULT_LIMIT),
        steps: words.get_one::<u64>("steps").unwrap_or(EXPLORED_STEPS),
        same: words.get_flag("same"),
        audit: words.get_flag("audit"),
    }
}

/// Whether the words ask for the long form of events.
fn is_full(words: &ArgMatches<'_>) -> bool {
    words.get_str("events").unwrap_or("") == "full"
}

/// The texts of a command's options.
#[derive(Drop)]
struct Texts {
    /// A list of plays, or the name of the file that has it or that is written; nothing where there is neither.
    text: String,
    /// Where pictures go.
    timeline: Option<String>,
}

/// What the words of `schedule` ask for, with its input and the text of `--turns` or the name of the file that has it.
fn schedule_of(words: &ArgMatches<'_>, input: Input, text: String) -> Request
    requires { OfScripts input }
    ensures { ExplainsScripts result }
{
    let options = options_of(words);
    if words.get_str("turns-from").is_some() {
        return Request::Replay {
            input,
            from: text,
            options,
        };
    }
    Request::Schedule {
        input,
        plays: text,
        options,
    }
}

/// How many workers the words of `run` ask for.
fn workers_of(words: &ArgMatches<'_>) -> u64 {
    words.get_one::<u64>("workers").unwrap_or(DEFAULT_WORKERS)
}

/// What the words of `run` ask for, with its input and the name of the file that it is recorded in.
fn work_of(words: &ArgMatches<'_>, input: Input, text: String) -> Request
    requires { OfScripts input }
    ensures { ExplainsScripts result }
{
    let options = options_of(words);
    let workers = workers_of(words);
    if words.get_str("record").is_some() {
        return Request::Record {
            input,
            workers,
            options,
            out: text,
        };
    }
    drop(text);
    Request::Run {
        input,
        workers,
        options,
    }
}

/// How the words of a command that runs something say that it is scheduled, with its text.
fn scheduling_of(name: &str, words: &ArgMatches<'_>, text: String) -> Scheduling {
    if name == "run" {
        drop(text);
        return Scheduling::Workers(workers_of(words));
    }
    if words.get_str("turns-from").is_some() {
        return Scheduling::TurnsFrom(text);
    }
    Scheduling::Turns(text)
}

/// What the words of a command that runs something ask for, with its input and its texts.
fn run_of(name: &str, words: &ArgMatches<'_>, input: Input, texts: Texts) -> Request
    requires { OfScripts input }
    ensures { ExplainsScripts result }
{
    let Texts { text, timeline } = texts;
    let (full, json) = (is_full(words), words.get_flag("json"));
    if full || json || timeline.is_some() {
        return Request::Show {
            input,
            scheduling: scheduling_of(name, words, text),
            options: options_of(words),
            showing: Showing {
                full,
                json,
                timeline,
            },
        };
    }
    drop(timeline);
    if name == "run" {
        return work_of(words, input, text);
    }
    schedule_of(words, input, text)
}

/// What the words of a command that runs nothing ask for, with its input.
fn check_of(name: &str, words: &ArgMatches<'_>, input: Input) -> Request
    requires { OfScripts input }
    ensures { ExplainsScripts result }
{
    if name == "dis" {
        return Request::List { input };
    }
    if words.get_flag("json") {
        return Request::CheckJson { input };
    }
    Request::Check { input }
}

/// What a command's words ask for, with its input and its texts.
fn request_of(name: &str, words: &ArgMatches<'_>, input: Input, texts: Texts) -> Request
    requires { OfScripts input }
    ensures { ExplainsScripts result }
{
    if name == "run" || name == "schedule" {
        return run_of(name, words, input, texts);
    }
    let Texts { text, timeline } = texts;
    if name == "build" {
        drop(timeline);
        return Request::Build { input, out: text };
    }
    drop(text);
    if name == "explore" {
        return Request::Explore {
            input,
            exploring: exploring_of(words),
            timeline,
        };
    }
    drop(timeline);
    check_of(name, words, input)
}

/// When the words of a command say that lines are explained.
fn explain_of(words: &ArgMatches<'_>) -> Explain {
    match words.get_str("explain").unwrap_or("auto") {
        "always" => Explain::Always,
        "never" => Explain::Never,
        _ => Explain::Auto,
    }
}

/// The text of the option that names a file or has a list of turns, of which a command has one at most.
fn text_of<'a>(words: &'a ArgMatches<'_>) -> Option<&'a str> {
    for option in ["out", "record", "turns-from", "turns"] {
        if let Some(text) = words.get_str(option) {
            return Some(text);
        }
    }
    None
}

/// A copy of a text, if there is one.
fn copy_of(alloc: Global, text: Option<&str>) -> Result<Option<String>, AllocError> {
    match text {
        Some(text) => Ok(Some(String::from_str(alloc, text)?)),
        None => Ok(None),
    }
}

/// What a command's words ask for, whose lines are explained or not. An option that the command lacks reads as one that isn't there.
fn asked_of(
    alloc: Global,
    name: &str,
    words: &ArgMatches<'_>,
    code: bool,
    explain: bool,
) -> Result<Request, AllocError>
    requires { code ≡ true → explain ≡ false }
    ensures { IfOk result ExplainsScripts }
{
    let text = String::from_str(alloc, text_of(words).unwrap_or(""))?;
    let timeline = copy_of(alloc, words.get_str("timeline"))?;
    let texts = Texts { text, timeline };
    let input = Input {
        file: copy_of(alloc, words.get_str("FILE"))?,
        code,
        explain,
    };
    Ok(request_of(name, words, input, texts))
}

/// What the matched words ask for, where the standard error is a terminal or isn't. Of code nothing is explained, since there is no script to show.
fn asked(alloc: Global, matches: &ArgMatches<'_>, is_terminal: bool) -> Result<Request, AllocError>
    ensures { IfOk result ExplainsScripts }
{
    let Some((name, words)) = matches.subcommand() else {
        return Ok(Request::Faulty(String::new(alloc)));
    };
    if let Some(fault) = conflict_of(words) {
        return excluded(alloc, name, fault);
    }
    if words.get_flag("code") {
        return asked_of(alloc, name, words, true, false);
    }
    let explain = explain_of(words).is_meant(is_terminal);
    asked_of(alloc, name, words, false, explain)
}

/// What is wrong with words of which two can't be used together, where that depends on an option's value.
fn conflict_of(words: &ArgMatches<'_>) -> Option<&'static str> {
    let (code, full) = (words.get_flag("code"), is_full(words));
    match explain_of(words) {
        Explain::Always if code => { Some("the argument '--code' cannot be used with '--explain'") }
        _ if full && code => Some("the argument '--code' cannot be used with '--events=full'"),
        _ if full && words.get_str("record").is_some() => {
            Some("the argument '--record <F>' cannot be used with '--events=full'")
        }
        _ => None,
    }
}

/// The usage fault of words of this command, of which two can't be used together.
fn excluded(alloc: Global, name: &str, fault: &str) -> Result<Request, AllocError>
    ensures { IfOk result ExplainsScripts }
{
    let Some(row) = COMMANDS.iter().find(|row| row.0 == name) else {
        return Ok(Request::Faulty(String::new(alloc)));
    };
    let full = format!(in alloc; "txs {name}")?;
    let mut command = below(alloc, row)?.bin_name(full.as_str())?;
    let error = command.error(ErrorKind::ArgumentConflict, fault)?;
    told(alloc, &error)
}

/// Appends a command's name to a list of them, and a comma before all but the first.
fn add_name(names: &mut String, name: &str) -> Result<(), AllocError> {
    if !names.is_empty() {
        names.push_str(", ")?;
    }
    write!(names, "`{name}`")
}

/// The commands that have this option, as a list of their names.
fn commands_with(alloc: Global, flag: &str) -> Result<String, AllocError> {
    let mut names = String::new(alloc);
    for row in &COMMANDS {
        if row.2.iter().any(|of| of.0 == flag) {
            add_name(&mut names, row.0)?;
        }
    }
    Ok(names)
}

/// The text of a usage fault for an argument that its command lacks, which is the option of another: in place of the tip to give it as
/// a value the tip says of which. Any other text stays as it is.
fn with_tip(alloc: Global, text: String) -> Result<String, AllocError> {
    let Some((flag, rest)) = unexpected(text.as_str()) else {
        return Ok(text);
    };
    let names = commands_with(alloc, flag)?;
    if names.is_empty() {
        return Ok(text);
    }
    format!(in alloc;
        "error: unexpected argument '--{flag}' found\n\n  tip: `--{flag}` is an option of {names}\n\nUsage: {rest}"
    )
}

/// The option that a text of `clap` says is unexpected, and what stands behind the word for usage.
fn unexpected(text: &str) -> Option<(&str, &str)> {
    let (flag, behind) = text
        .strip_prefix("error: unexpected argument '--")?
        .split_once("' found")?;
    let (_, usage) = behind.split_once("\n\nUsage: ")?;
    Some((flag, usage))
}

/// The text of what isn't run: help, or a usage fault.
fn told(alloc: Global, error: &Error) -> Result<Request, AllocError>
    ensures { IfOk result ExplainsScripts }
{
    if error.kind() == ErrorKind::OutOfMemory {
        return Err(AllocError);
    }
    let text = format!(in alloc; "{error}")?;
    Ok(if error.use_stderr() {
        Request::Faulty(with_tip(alloc, text)?)
    } else {
        Request::Shown(text)
    })
}

/// Whether a first word names a file that is to run: it is no option, and no command.
fn names_file(word: &str) -> bool {
    !word.starts_with('-') && word != "help" && !COMMANDS.iter().any(|row| row.0 == word)
}

/// All words of a command line. Where the first names a file, they begin with `run`.
fn with_command(alloc: Global, args: &[String]) -> Result<Vec<&str>, AllocError> {
    let mut words = Vec::new(alloc);
    if args.first().is_some_and(|word| names_file(word.as_str())) {
        words.push("run")?;
    }
    for arg in args {
        words.push(arg.as_str())?;
    }
    Ok(words)
}

/// What the words after the program's name ask for. Whether the standard error is a terminal decides whether lines are explained, where
/// the words don't; of code in its byte form nothing is explained.
pub fn parse_words(alloc: Global, args: &[String], is_terminal: bool) -> Result<Request, AllocError>
    ensures { IfOk result ExplainsScripts }
{
    let words = with_command(alloc, args)?;
    match command(alloc)?.try_get_matches_from(words.as_slice()) {
        Ok(matches) => asked(alloc, &matches, is_terminal),
        Err(error) => told(alloc, &error),
    }
}
