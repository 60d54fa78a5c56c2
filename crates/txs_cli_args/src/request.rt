//! Requests to the program, one for each command.

ghost use Rattle.std.specs.Prelude.{◌≡◌};
ghost use Rattle.txs_cli_args.specs.Explained.{is_explained};

/// When refusals, faults and stops of a script are explained.
#[derive(Clone, Copy)]
pub enum Explain {
    /// Each is.
    Always,
    /// None is.
    Never,
    /// Each is where the standard error is a terminal.
    Auto,
}

impl Explain {
    /// Whether they are explained, where it is known whether the standard error is a terminal.
    pub fn is_meant(self, is_terminal: bool) -> bool
        ensures { result ≡ is_explained self is_terminal }
    {
        match self {
            Explain::Always => true,
            Explain::Never => false,
            Explain::Auto => is_terminal,
        }
    }
}

/// What a command works on.
#[derive(Drop)]
pub struct Input {
    /// The file, where it is named; else it is the standard input.
    pub file: Option<String>,
    /// Whether it is the byte form of code, and no script.
    pub code: bool,
    /// Whether refusals, faults and stops of a script are explained.
    pub explain: bool,
}

/// What a run is told beside its input.
#[derive(Clone, Copy)]
pub struct RunOptions {
    /// How many steps each thread and each agent makes at most.
    pub steps: u64,
    /// Whether the cells are printed.
    pub cells: bool,
    /// Whether the events of the journal are printed in their short form.
    pub events: bool,
    /// Whether the report is audited, which has to be of a script.
    pub audit: bool,
}

/// How the outcomes of a script are looked for.
#[derive(Clone, Copy)]
pub struct Exploring {
    /// How many asks a search makes at most.
    pub asks: u64,
    /// How many steps each thread and each agent makes at most.
    pub steps: u64,
    /// Whether there is to be one outcome alone.
    pub same: bool,
    /// Whether the report of each outcome's run is audited.
    pub audit: bool,
}

/// How a run is scheduled of which more is shown.
#[derive(Drop)]
pub enum Scheduling {
    /// By so many workers.
    Workers(u64),
    /// By the plays of this list, and then in rounds.
    Turns(String),
    /// The same, with the list that the file of this name has, or the standard input if it is `-`.
    TurnsFrom(String),
}

/// What is shown of a run beside its plain output, or in its place.
#[derive(Drop)]
pub struct Showing {
    /// Whether the events are printed in their long form.
    pub full: bool,
    /// Whether lines of JSON are printed in place of the plain output.
    pub json: bool,
    /// The file that the run's picture is written to, if one is.
    pub timeline: Option<String>,
}

/// What the program is asked for.
#[derive(Drop)]
pub enum Request {
    /// `check`: to check a script.
    Check {
        input: Input,
    },
    /// `dis`: to list code, or the code that a script compiles to.
    List {
        input: Input,
    },
    /// `build`: to write the code that a script compiles to, in its byte form, to the file of this name.
    Build {
        input: Input,
        out: String,
    },
    /// `run`: to run a script or code by so many workers.
    Run {
        input: Input,
        workers: u64,
        options: RunOptions,
    },
    /// `run --record`: to run a script by so many workers, and to write the plays by which a schedule makes the run again to the file of this name.
    Record {
        input: Input,
        workers: u64,
        options: RunOptions,
        out: String,
    },
    /// `schedule`: to run a script or code by a schedule, whose entries come before the rounds.
    Schedule {
        input: Input,
        plays: String,
        options: RunOptions,
    },
    /// `schedule --turns-from`: the same, with the plays that the file of this name has, or the standard input if it is `-`.
    Replay {
        input: Input,
        from: String,
        options: RunOptions,
    },
    /// `run` or `schedule` with `--events=full`, `--timeline` or `--json`: to run a script, and to show more of the run, or in another form.
    Show {
        input: Input,
        scheduling: Scheduling,
        options: RunOptions,
        showing: Showing,
    },
    /// `check --json`: to check a script, and to say as a line of JSON what comes of it.
    CheckJson {
        input: Input,
    },
    /// `explore`: to list all outcomes of a script; `--timeline` names the folder that gets a picture for each outcome.
    Explore {
        input: Input,
        exploring: Exploring,
        timeline: Option<String>,
    },
    /// To print a text on the standard output, which is help.
    Shown(String),
    /// To print a text on the standard error, for a usage fault.
    Faulty(String),
}
