//! What a request asks for: a task, which is to write a text, to use a source, or to run it by a list of plays.

ghost use Rattle.std.specs.Prelude.{◌≡◌, ◌&&◌};
ghost use Rattle.txs_cli.specs.Runs.{way_of};
ghost use Rattle.txs_cli.specs.Source.{source_of};
ghost use Rattle.txs_cli.specs.Telling.{Do, alone, explained_as, source_in, task_in, task_of, turns_alone, unless, use_of, wrong_use};
ghost use Rattle.txs_cli_report.specs.Lent.{text_in};

use crate::run::{Listed, Way};
use crate::source::Source;
use crate::tell::Use;
use txs_cli_args::{Input, Request, RunOptions};
use txs_cli_report::told::{DONE, UNUSABLE};

/// What is to be done.
#[derive(Clone, Copy)]
pub enum Task<'a> {
    /// This is written, and nothing is read.
    Say {
        output: &'a str,
        errors: &'a str,
        status: u8,
    },
    /// A source is used.
    Do {
        source: Source<'a>,
        wanted: Use<'a>,
    },
    /// A source runs by a list of plays, which is written so.
    Schedule {
        source: Source<'a>,
        turns: &'a str,
        options: RunOptions,
    },
}

/// The name under which lines are explained, where they are: that of the file, or `-` for standard input.
fn explained_as(input: &Input) -> Option<&str>
    ensures { text_in result ≡ explained_as input.now.explain input.now.file }
{
    if !input.explain {
        return None;
    }
    match &input.file {
        Some(name) => Some(name.as_str()),
        None => Some("-"),
    }
}

/// The source that an input is.
fn source_in(input: &Input) -> Source<'_>
    ensures { source_of result ≡ source_in input.now }
{
    if input.code {
        return Source::Form;
    }
    Source::Script(explained_as(input))
}

/// To tell of arguments that can't be used, which `clap` doesn't find.
fn wrong_use<'a>() -> Task<'a>
    ensures { task_in result ≡ wrong_use }
{
    Task::Say {
        output: "",
        errors: "wrong use\n",
        status: UNUSABLE,
    }
}

/// A task, but where it can't be asked for.
fn unless<'a>(wrong: bool, task: Task<'a>) -> Task<'a>
    ensures { task_in result ≡ unless wrong (task_in task.entry) }
{
    if wrong {
        return wrong_use();
    }
    task
}

/// Whether an audit is asked for of code in its byte form, which can't be audited.
fn audits_code(input: &Input, options: RunOptions) -> bool
    ensures { result ≡ (options.audit && input.now.code) }
{
    if options.audit {
        return input.code;
    }
    false
}

/// What a request asks for. A byte form that is to be written goes to the standard output here. Code in its byte form can't be audited. A run can't
/// be recorded here, nor more be shown of it.
pub(crate) fn task_of(request: &Request) -> Task<'_>
    ensures { task_in result ≡ task_of request.now }
{
    match request {
        Request::Check { input } => Task::Do {
            source: Source::Script(explained_as(input)),
            wanted: Use::Check,
        },
        Request::List { input } => Task::Do {
            source: source_in(input),
            wanted: Use::Listing,
        },
        Request::Build { input, .. } => Task::Do {
            source: Source::Script(explained_as(input)),
            wanted: Use::Build,
        },
        Request::Run {
            input,
            workers,
            options,
        } => {
            let wanted = Use::Run {
                way: Way::Workers(*workers as usize),
                options: *options,
            };
            let source = source_in(input);
            unless(audits_code(input, *options), Task::Do { source, wanted })
        }
        Request::Schedule {
            input,
            plays,
            options,
        } => {
            let task = Task::Schedule {
                source: source_in(input),
                turns: plays.as_str(),
                options: *options,
            };
            unless(audits_code(input, *options), task)
        }
        Request::Record { .. }
        | Request::Replay { .. }
        | Request::Show { .. }
        | Request::CheckJson { .. }
        | Request::Explore { .. } => wrong_use(),
        Request::Shown(text) => Task::Say {
            output: text.as_str(),
            errors: "",
            status: DONE,
        },
        Request::Faulty(text) => Task::Say {
            output: "",
            errors: text.as_str(),
            status: UNUSABLE,
        },
    }
}

/// How code runs without workers: by no plays, and then in rounds.
fn turns_alone(way: Way<'_>) -> Way<'_>
    ensures { way_of result ≡ turns_alone (way_of way.entry) }
{
    match way {
        Way::Turns(_) => way,
        Way::Workers(_) => Way::Turns(Listed {
            plays: &[],
            text: "",
        }),
    }
}

/// To use a source without workers and without an audit.
fn use_alone<'a>(source: Source<'a>, wanted: Use<'a>) -> Task<'a>
    ensures { task_in result ≡ alone (Do (source_of source.entry) (use_of wanted.entry)) }
{
    match wanted {
        Use::Check | Use::Listing | Use::Build => Task::Do { source, wanted },
        Use::Run { way, options } => {
            let wanted = Use::Run {
                way: turns_alone(way),
                options,
            };
            unless(options.audit, Task::Do { source, wanted })
        }
    }
}

/// A task without workers and without an audit, which can't be asked for.
pub(crate) fn alone(task: Task<'_>) -> Task<'_>
    ensures { task_in result ≡ alone (task_in task.entry) }
{
    match task {
        Task::Say { .. } => task,
        Task::Do { source, wanted } => use_alone(source, wanted),
        Task::Schedule { options, .. } => unless(options.audit, task),
    }
}
