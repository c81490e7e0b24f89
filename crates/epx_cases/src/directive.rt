//! The directives of a script.
use crate::flow::Flow;

/// A line that begins a text of a case, or sets how the case runs.
#[derive(Clone, Copy)]
pub(crate) enum Directive {
    /// Begins the base that the report resumes from.
    Base,
    /// Begins the list to check or to replay.
    List,
    /// Begins what a replica said.
    Said,
    /// Begins the calls of clients.
    History,
    /// Begins this number of equal logs.
    Logs(usize),
    /// Sets the flow of the source of the last text.
    Gives(Flow),
    /// Sets the flow of the sink.
    Takes(Flow),
    /// Sets the flow of the source of the last text, which fails after each number of bytes.
    GivesEach(Flow),
    /// Sets the flow of the sink, which fails after each number of bytes.
    TakesEach(Flow),
    /// Adds a plan to the case.
    Plan { workers: usize, cut: usize },
}

/// The numbers of a directive, at most two.
fn numbers_in(written: &str) -> Option<(Option<usize>, Option<usize>)> {
    if written.is_empty() {
        return Some((None, None));
    }
    match written.split_once(' ') {
        None => Some((Some(written.parse().ok()?), None)),
        Some((first, second)) => Some((Some(first.parse().ok()?), Some(second.parse().ok()?))),
    }
}

impl Directive {
    /// The directive of a line, if it is one.
    pub(crate) fn parse(line: &str) -> Option<Directive> {
        let (word, rest) = line.split_once(' ').unwrap_or((line, ""));
        if let Some(written) = rest.strip_suffix(" each") {
            let flow = Flow::new(written.parse().ok()?, None)?;
            return match word {
                "gives" => Some(Directive::GivesEach(flow)),
                "takes" => Some(Directive::TakesEach(flow)),
                _ => None,
            };
        }
        match (word, numbers_in(rest)?) {
            ("base", (None, None)) => Some(Directive::Base),
            ("list", (None, None)) => Some(Directive::List),
            ("said", (None, None)) => Some(Directive::Said),
            ("history", (None, None)) => Some(Directive::History),
            ("log", (None, None)) => Some(Directive::Logs(1)),
            ("logs", (Some(count), None)) => Some(Directive::Logs(count)),
            ("gives", (Some(at_once), fuse)) => Some(Directive::Gives(Flow::new(at_once, fuse)?)),
            ("takes", (Some(at_once), fuse)) => Some(Directive::Takes(Flow::new(at_once, fuse)?)),
            ("plan", (Some(workers), Some(cut))) => Some(Directive::Plan { workers, cut }),
            _ => None,
        }
    }
}
