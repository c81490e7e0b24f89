//! The inputs that a command line names.
use epx_bad_lines::{made, show_text};
use epx_names::Task;
use epx_types::Memory;
use std::alloc::Global;
use std::fmt;

/// What the first path of a command line names. In faults it has the number after the last log.
#[derive(Clone, Copy, Debug)]
pub(crate) enum FirstInput {
    /// A log, as all other paths.
    None,
    /// The state, or the report, from which logs are followed.
    State,
    /// The report from which a run resumes.
    Base,
    /// The list of executed instances.
    List,
    /// What a replica said.
    Said,
    /// The history of calls.
    History,
}

/// What an input is read as.
#[derive(Clone, Copy)]
pub(crate) enum Role {
    Log(usize),
    State,
    Base,
    List,
    Said,
    History,
}

impl fmt::Display for Role {
    fn fmt<W: fmt::Write>(&self, f: &mut fmt::Formatter<W>) -> fmt::Result {
        match self {
            Role::Log(number) => write!(f, "log {number}"),
            Role::State => write!(f, "STATE"),
            Role::Base => write!(f, "BASE"),
            Role::List => write!(f, "LIST"),
            Role::Said => write!(f, "SAID"),
            Role::History => write!(f, "HISTORY"),
        }
    }
}

/// Where the bytes of an input come from.
#[derive(Clone, Copy)]
pub(crate) enum Origin<'a> {
    StandardInput,
    File(&'a str),
    /// The command line names no such input.
    Unnamed,
}

#[derive(Clone, Copy)]
pub(crate) struct Input<'a> {
    pub role: Role,
    pub origin: Origin<'a>,
    /// The bytes that were kept while it was read.
    pub kept: Option<&'a [u8]>,
}

impl<'a> Input<'a> {
    /// Where it is, as `run/2.jsonl`.
    pub fn location(&self, alloc: Global) -> Result<String, Memory> {
        match self.origin {
            Origin::StandardInput => made(String::from_str(alloc, "standard input")),
            Origin::File(path) => show_text(alloc, path),
            Origin::Unnamed => made(String::from_str(alloc, "not named")),
        }
    }

    /// Which input it is, as `log 2 is run/2.jsonl`.
    pub fn name(&self, alloc: Global) -> Result<String, Memory> {
        let role = self.role;
        let location = self.location(alloc)?;
        made(format!(in alloc; "{role} is {location}"))
    }
}

/// The inputs of a command.
#[derive(Clone, Copy)]
pub struct Inputs<'a> {
    paths: Option<&'a [String]>,
    first: FirstInput,
    kept: &'a [Option<Vec<u8>>],
    /// The path under which a state could not be saved.
    unsaved: Option<&'a str>,
}

/// Where the bytes at an index of the paths come from. Without paths, from standard input.
fn origin_at<'a>(paths: Option<&'a [String]>, index: usize) -> Origin<'a> {
    let Some(paths) = paths else {
        return Origin::StandardInput;
    };
    match paths.get(index) {
        Some(path) if path.as_str() == "-" => Origin::StandardInput,
        Some(path) => Origin::File(path.as_str()),
        None => Origin::Unnamed,
    }
}

/// The paths as a slice. None if the command line has none.
fn paths_of(paths: &Option<Vec<String>>) -> Option<&[String]> {
    match paths {
        Some(paths) => Some(paths.as_slice()),
        None => None,
    }
}

/// What the first path of a task names.
fn first_of(task: Task) -> FirstInput {
    match task {
        Task::Resume => FirstInput::Base,
        Task::Check | Task::CheckPrefix | Task::Replay => FirstInput::List,
        Task::Verify => FirstInput::Said,
        Task::Linear { .. } => FirstInput::History,
        _ => FirstInput::None,
    }
}

impl<'a> Inputs<'a> {
    /// The inputs of a task. If there are no paths, log 0 is standard input.
    ///
    /// `kept` has, by the index of a path, the bytes that were kept while it was read. It has None
    /// for a file that can be read again. The slice may end before the paths do: nothing was kept
    /// of the others.
    pub fn of_task(
        task: Task,
        paths: &'a Option<Vec<String>>,
        kept: &'a [Option<Vec<u8>>],
    ) -> Inputs<'a> {
        Inputs {
            paths: paths_of(paths),
            first: first_of(task),
            kept,
            unsaved: None,
        }
    }

    /// The inputs of following logs. With `has_state` the first path is that of the state.
    /// `unsaved` is the path under which the state at the end could not be saved.
    pub fn of_follow(
        paths: &'a Option<Vec<String>>,
        has_state: bool,
        unsaved: Option<&'a str>,
    ) -> Inputs<'a> {
        let first = if has_state {
            FirstInput::State
        } else {
            FirstInput::None
        };
        Inputs {
            paths: paths_of(paths),
            first,
            kept: &[],
            unsaved,
        }
    }

    /// The path under which a state could not be saved.
    pub(crate) fn unsaved(&self) -> Option<&'a str> {
        self.unsaved
    }

    /// The input at an index of the paths, with the bytes that were kept of it.
    fn at(&self, role: Role, index: usize) -> Input<'a> {
        let kept = match self.kept.get(index) {
            Some(Some(bytes)) => Some(bytes.as_slice()),
            _ => None,
        };
        Input {
            role,
            origin: origin_at(self.paths, index),
            kept,
        }
    }

    /// How many logs the command line names.
    pub(crate) fn count_logs(&self) -> usize {
        match (self.paths, self.first) {
            (None, _) => 1,
            (Some(paths), FirstInput::None) => paths.len(),
            (Some(paths), _) => paths.len().saturating_sub(1),
        }
    }

    /// STATE, BASE, LIST, SAID or HISTORY, if the command has one.
    pub(crate) fn first_input(&self) -> Option<Input<'a>> {
        match self.first {
            FirstInput::None => None,
            FirstInput::State => Some(self.at(Role::State, 0)),
            FirstInput::Base => Some(self.at(Role::Base, 0)),
            FirstInput::List => Some(self.at(Role::List, 0)),
            FirstInput::Said => Some(self.at(Role::Said, 0)),
            FirstInput::History => Some(self.at(Role::History, 0)),
        }
    }

    /// The log with this number.
    pub(crate) fn log(&self, log: usize) -> Input<'a> {
        let index = match self.first {
            FirstInput::None => log,
            _ => log.saturating_add(1),
        };
        self.at(Role::Log(log), index)
    }

    /// The input with this number in a fault of reading: STATE, BASE, LIST, SAID and HISTORY have
    /// the number after the last log.
    pub(crate) fn numbered(&self, number: usize) -> Input<'a> {
        match self.first_input() {
            Some(input) if number >= self.count_logs() => input,
            _ => self.log(number),
        }
    }
}
