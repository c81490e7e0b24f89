//! What a command line asks for.

use epx_names::Task;
use epx_types::Plan;

/// What flags ask for. They change no answer.
#[derive(Clone, Copy, Debug, PartialEq, Eq)]
pub struct Flags {
    /// `--exit-code`: status 5 says that the answer has findings.
    pub exit_code: bool,
    /// `--explain`: a further line explains a fault.
    pub explain: bool,
    /// `--quiet`: no line on a terminal says how far the work is.
    pub quiet: bool,
}

/// How logs are followed.
#[derive(Debug, Drop)]
pub struct FollowOptions {
    /// `--each`: every line is a batch.
    pub each: bool,
    /// `--explain`: a further line explains a fault.
    pub explain: bool,
    /// `--quiet`: no line on a terminal says how far the work is.
    pub quiet: bool,
    /// `--state`: the path of a state, or of a report, to go on from.
    pub state: Option<String>,
    /// `--save`: the path under which the state at the end is saved.
    pub save: Option<String>,
}

/// What a command line means: work to do, or a text to print.
#[derive(Debug, Drop)]
pub enum Words {
    /// A task over the logs at these paths. Where the task has an input besides the logs, as a base
    /// or a list, the first path is that of the input. `None` means one log, standard input.
    Work {
        task: Task,
        plan: Plan,
        paths: Option<Vec<String>>,
    },
    /// As `Work`, for words with a flag.
    WorkWith {
        task: Task,
        plan: Plan,
        paths: Option<Vec<String>>,
        flags: Flags,
    },
    /// Executes the logs at these paths as they come. `None` means one log, standard input.
    Follow {
        plan: Plan,
        paths: Option<Vec<String>>,
        options: FollowOptions,
    },
    /// A text to print: the help or the version, or why the command line is refused. The program
    /// then exits with `status`.
    Text {
        text: String,
        status: u8,
    },
}
