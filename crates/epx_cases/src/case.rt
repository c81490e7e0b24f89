//! A case of a script, and its runs.
use crate::asked_task::asked_task;
use crate::case_input::{CaseInput, FailingDevice};
use crate::directive::Directive;
use crate::flow::Flow;
use crate::line::add_line;
use crate::meaning::meanings;
use crate::outcome::{answer_input, deliver_input};
use crate::state::restored_state;
use crate::words::words_text;
use epx_tool::Task;
use epx_types::{Memory, Plan};
use std::alloc::{AllocGlobal, Global};
use std::fs;
use std::io::{self, ErrorKind, Print};
use std::random::RandomSource;
use std::rt::Files;
use std::thread::Threads;

/// The workers and cuts of the runs of a case that names no plan. Runs through devices use the
/// last.
const PLANS: [(usize, usize); 7] = [
    (1, 1),
    (2, 1),
    (2, 65_536),
    (3, 65_536),
    (64, 1),
    (64, 2),
    (4, 256),
];

/// The line of a failed write.
const FAILED_WRITE: &[u8] = b"epx: fault 8: the answer can not be written\n";

/// What a case tests.
#[derive(Drop)]
enum Subject<'a> {
    /// What these words ask for.
    Words(&'a str),
    /// What each line of logs means.
    Lines,
    /// The state of an executor.
    State,
    /// The answer to texts.
    Answer(Task),
}

fn subject_of(head: &str) -> Option<Subject<'_>> {
    let (command, name) = head.split_once(' ').unwrap_or((head, ""));
    match command {
        "words" => Some(Subject::Words(name)),
        "lines" => Some(Subject::Lines),
        "state" => Some(Subject::State),
        _ => Some(Subject::Answer(asked_task(command, name)?)),
    }
}

/// A command over texts, and the expected text.
#[derive(Drop)]
pub(crate) struct Case<'a> {
    /// Its first line.
    head: &'a str,
    subject: Option<Subject<'a>>,
    case_input: CaseInput,
    /// The plans of its runs.
    plans: Vec<Plan>,
    wanted: Vec<u8>,
    /// Whether the line `----` was read.
    has_wanted: bool,
    /// The first line that has no meaning.
    unread_line: Option<&'a str>,
}

impl<'a> Case<'a> {
    pub(crate) fn new(alloc: Global, head: &'a str) -> Case<'a> {
        Case {
            head,
            subject: subject_of(head),
            case_input: CaseInput::new(alloc),
            plans: Vec::new(alloc),
            wanted: Vec::new(alloc),
            has_wanted: false,
            unread_line: None,
        }
    }

    /// Adds a plan. Returns false if the plan is not within the limits.
    fn add_plan(&mut self, workers: usize, cut: usize) -> io::Result<bool> {
        let Some(plan) = Plan::new(workers, cut) else {
            return Ok(false);
        };
        self.plans.push(plan)?;
        Ok(true)
    }

    /// Reads a line above `----`. Returns false if the line has no meaning.
    fn read_input_line(&mut self, alloc: Global, line: &str) -> io::Result<bool> {
        let Some(directive) = Directive::parse(line) else {
            return self.case_input.add_line(alloc, line);
        };
        match (directive, &self.subject) {
            (Directive::Logs(count), Some(Subject::Answer(_))) => {
                self.case_input.begin_logs(alloc, count)?;
            }
            (Directive::Logs(count), Some(Subject::Lines | Subject::State)) => {
                self.case_input.begin_logs(alloc, count)?;
            }
            (Directive::Plan { workers, cut }, Some(Subject::Answer(_))) => {
                return self.add_plan(workers, cut);
            }
            (Directive::Base, Some(Subject::Answer(Task::Resume)))
            | (
                Directive::List,
                Some(Subject::Answer(Task::Check | Task::CheckPrefix | Task::Replay)),
            )
            | (Directive::Said, Some(Subject::Answer(Task::Verify)))
            | (Directive::History, Some(Subject::Answer(Task::Linear { .. }))) => {
                self.case_input.begin_first();
            }
            (Directive::Gives(flow), Some(Subject::Answer(_))) => return Ok(
                self.case_input.set_source_flow(flow),
            ),
            (Directive::Takes(flow), Some(Subject::Answer(_))) => {
                self.case_input.set_sink_flow(flow);
            }
            (Directive::GivesEach(flow), Some(Subject::Answer(_))) => {
                return Ok(self.case_input.set_failing(FailingDevice::Source, flow));
            }
            (Directive::TakesEach(flow), Some(Subject::Answer(_))) => {
                return Ok(self.case_input.set_failing(FailingDevice::Sink, flow));
            }
            _ => return Ok(false),
        }
        Ok(true)
    }

    /// Reads a line after the first.
    pub(crate) fn read_line(&mut self, alloc: Global, line: &'a str) -> io::Result<()> {
        let is_read = if self.has_wanted {
            add_line(alloc, &mut self.wanted, line)?
        } else if line == "----" {
            self.has_wanted = true;
            true
        } else {
            line.starts_with('#') || self.read_input_line(alloc, line)?
        };
        if !is_read && self.unread_line.is_none() {
            self.unread_line = Some(line);
        }
        Ok(())
    }

    /// Adds the text of the file that a line after the first names.
    pub(crate) fn read_file<R: AllocGlobal + Files>(
        &mut self,
        rt: &R,
        line: &'a str,
        path: &str,
    ) -> io::Result<()> {
        let is_read = match fs::read(rt, path) {
            Ok(text) if self.has_wanted => {
                self.wanted.extend_from_slice(&text)?;
                true
            }
            Ok(text) => self.case_input.add_text(&text)?,
            Err(_) => false,
        };
        if !is_read && self.unread_line.is_none() {
            self.unread_line = Some(line);
        }
        Ok(())
    }

    /// Whether a text is the expected one. Prints it if it is not.
    fn is_expected<R: Print>(
        &self,
        rt: &R,
        alloc: Global,
        way: &str,
        found: &[u8],
    ) -> io::Result<bool> {
        if found == self.wanted.as_slice() {
            return Ok(true);
        }
        let head = self.head;
        println!(rt; "{head} DIFFERS {way}:")?;
        print!(rt; "{}", String::from_utf8_lossy(alloc, found)?)?;
        Ok(false)
    }

    /// Adds the seven plans, if the case names no plan.
    fn add_default_plans(&mut self) -> io::Result<()> {
        if self.plans.is_empty() {
            for (workers, cut) in PLANS {
                self.add_plan(workers, cut)?;
            }
        }
        Ok(())
    }

    /// Whether the answer in memory is the expected text, under each plan.
    fn is_right_in_memory<R: Print + Threads + RandomSource + Sync>(
        &self,
        rt: &R,
        alloc: Global,
        task: &Task,
    ) -> io::Result<bool> {
        for plan in &self.plans {
            let found = answer_input(rt, alloc, task, &self.case_input, *plan)?;
            let (workers, cut) = (plan.workers(), plan.cut());
            let way = format!(in alloc; "in memory with {workers} workers and cut {cut}")?;
            if !self.is_expected(rt, alloc, way.as_str(), &found)? {
                return Ok(false);
            }
        }
        Ok(true)
    }

    /// Whether the answer through devices is the expected text, under the last plan.
    fn is_right_on_devices<R: Print + Threads + RandomSource + Sync>(
        &self,
        rt: &R,
        alloc: Global,
        task: &Task,
    ) -> io::Result<bool> {
        let Some(plan) = self.plans.last() else {
            return Ok(false);
        };
        let found = deliver_input(rt, alloc, task, &self.case_input, *plan)?;
        self.is_expected(rt, alloc, "through devices", &found)
    }

    /// The expected text of a run through devices of which one fails after `bytes`. If it is the
    /// sink, the text is what the sink has taken and the line of the failed write.
    fn expected_after(
        &self,
        alloc: Global,
        failing_device: FailingDevice,
        bytes: usize,
    ) -> io::Result<Vec<u8>> {
        let mut text = Vec::new(alloc);
        match failing_device {
            FailingDevice::Source => text.extend_from_slice(&self.wanted)?,
            FailingDevice::Sink => {
                let taken = bytes.min(self.wanted.len());
                text.extend_from_slice(&self.wanted[..taken])?;
                text.extend_from_slice(FAILED_WRITE)?;
            }
        }
        Ok(text)
    }

    /// Whether all runs in which a device fails have the expected text. The device fails after 0
    /// bytes, 1 byte and so on.
    fn is_right_on_failures<R: Print + Threads + RandomSource + Sync>(
        &mut self,
        rt: &R,
        alloc: Global,
        task: &Task,
        failing_device: FailingDevice,
        flow: Flow,
    ) -> io::Result<bool> {
        let most = match failing_device {
            FailingDevice::Source => self.case_input.last_len(),
            FailingDevice::Sink => self.wanted.len(),
        };
        let Some(plan) = self.plans.last().copied() else {
            return Ok(false);
        };
        let head = self.head;
        for bytes in 0..=most {
            self.case_input
                .set_failure(failing_device, flow.with_failure_after(bytes));
            let found = deliver_input(rt, alloc, task, &self.case_input, plan)?;
            if found != self.expected_after(alloc, failing_device, bytes)? {
                println!(rt; "{head} DIFFERS where a device fails after {bytes} bytes:")?;
                print!(rt; "{}", String::from_utf8_lossy(alloc, &found)?)?;
                return Ok(false);
            }
        }
        Ok(true)
    }

    /// Whether all runs of the task have the expected text.
    fn is_right_for<R: Print + Threads + RandomSource + Sync>(
        &mut self,
        rt: &R,
        alloc: Global,
        task: &Task,
    ) -> io::Result<bool> {
        if let Some((failing_device, flow)) = self.case_input.failing_device {
            return self.is_right_on_failures(rt, alloc, task, failing_device, flow);
        }
        if !self.case_input.names_flow && !self.is_right_in_memory(rt, alloc, task)? {
            return Ok(false);
        }
        self.is_right_on_devices(rt, alloc, task)
    }

    /// Whether the first text, read as a state and written again, is the expected text.
    fn is_right_as_state<R: Print + Threads + RandomSource + Sync>(
        &self,
        rt: &R,
        alloc: Global,
    ) -> io::Result<bool> {
        let (Some(state), Some(plan)) = (self.case_input.logs.first(), self.plans.last()) else {
            return Ok(false);
        };
        let found = restored_state(rt, alloc, state, *plan)?;
        self.is_expected(rt, alloc, "as a state", &found)
    }

    /// Whether all runs of the case have the expected text. It takes the subject, so it runs once.
    fn is_right<R: Print + Threads + RandomSource + Sync>(
        &mut self,
        rt: &R,
        alloc: Global,
    ) -> io::Result<bool> {
        match self.subject.take() {
            None => Ok(false),
            Some(Subject::Words(words)) => {
                let found = words_text(alloc, words)?;
                self.is_expected(rt, alloc, "as words", &found)
            }
            Some(Subject::Lines) => match meanings(alloc, &self.case_input.logs) {
                Ok(found) => self.is_expected(rt, alloc, "line by line", &found),
                Err(Memory) => Err(io::Error::from(ErrorKind::OutOfMemory)),
            },
            Some(Subject::State) => self.is_right_as_state(rt, alloc),
            Some(Subject::Answer(task)) => self.is_right_for(rt, alloc, &task),
        }
    }

    /// The reason why the case cannot be read, if it cannot.
    fn read_error(&self) -> Option<&'a str> {
        if self.unread_line.is_some() {
            return self.unread_line;
        }
        match (self.has_wanted, &self.subject) {
            (false, _) => Some("the line ---- is missing"),
            (true, None) => Some("no such command"),
            (true, Some(_)) => None,
        }
    }

    /// Runs the case, and prints its first line if all runs have the expected text.
    pub(crate) fn run<R: Print + Threads + RandomSource + Sync>(
        &mut self,
        rt: &R,
        alloc: Global,
    ) -> io::Result<()> {
        let head = self.head;
        if let Some(line) = self.read_error() {
            return println!(rt; "{head} CAN NOT BE READ: {line}");
        }
        self.add_default_plans()?;
        if self.is_right(rt, alloc)? {
            println!(rt; "{head}")?;
        }
        Ok(())
    }
}
