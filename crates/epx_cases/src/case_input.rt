//! The texts of a case.
use crate::flow::{Flow, NO_FAILURE};
use crate::line::add_line;
use std::alloc::Global;
use std::io;

/// The texts that the next lines are added to.
#[derive(Clone, Copy)]
enum Target {
    Nowhere,
    /// The base or the list.
    First,
    /// This number of the last logs.
    Logs(usize),
}

/// The device that fails after each number of bytes.
#[derive(Clone, Copy)]
pub(crate) enum FailingDevice {
    /// The source of the last text, or of the last equal logs.
    Source,
    Sink,
}

/// The texts of a case, and the flows of the devices.
pub(crate) struct CaseInput {
    /// The base to resume from, or the list to check.
    pub first: Vec<u8>,
    pub first_flow: Flow,
    pub logs: Vec<Vec<u8>>,
    pub log_flows: Vec<Flow>,
    pub sink_flow: Flow,
    /// Whether the case names a flow. Then it runs through devices alone.
    pub names_flow: bool,
    /// The device that fails after each number of bytes, and its flow without the failure.
    pub failing_device: Option<(FailingDevice, Flow)>,
    target: Target,
}

impl Drop for CaseInput {
    fn drop(self) {
        let CaseInput {
            first: _,
            first_flow: _,
            logs: _,
            log_flows: _,
            sink_flow: _,
            names_flow: _,
            failing_device: _,
            target: _,
        } = self;
    }
}

impl CaseInput {
    pub(crate) fn new(alloc: Global) -> CaseInput {
        CaseInput {
            first: Vec::new(alloc),
            first_flow: NO_FAILURE,
            logs: Vec::new(alloc),
            log_flows: Vec::new(alloc),
            sink_flow: NO_FAILURE,
            names_flow: false,
            failing_device: None,
            target: Target::Nowhere,
        }
    }

    /// Begins the base or the list.
    pub(crate) fn begin_first(&mut self) {
        self.target = Target::First;
    }

    /// Begins `count` equal logs.
    pub(crate) fn begin_logs(&mut self, alloc: Global, count: usize) -> io::Result<()> {
        for _ in 0..count {
            self.logs.push(Vec::new(alloc))?;
            self.log_flows.push(NO_FAILURE)?;
        }
        self.target = Target::Logs(count);
        Ok(())
    }

    /// Adds a line to the last texts. Returns false if the line cannot be read.
    pub(crate) fn add_line(&mut self, alloc: Global, line: &str) -> io::Result<bool> {
        if !line.starts_with(['{', '[', '%']) {
            return Ok(false);
        }
        match self.target {
            Target::Nowhere => Ok(false),
            Target::First => add_line(alloc, &mut self.first, line),
            Target::Logs(count) => {
                let before = self.logs.len().saturating_sub(count);
                let mut is_read = false;
                for log in self.logs.iter_mut().skip(before) {
                    is_read = add_line(alloc, log, line)?;
                }
                Ok(is_read)
            }
        }
    }

    /// Adds a whole text to the last texts. Returns false if there are none.
    pub(crate) fn add_text(&mut self, text: &[u8]) -> io::Result<bool> {
        match self.target {
            Target::Nowhere => return Ok(false),
            Target::First => self.first.extend_from_slice(text)?,
            Target::Logs(count) => {
                let before = self.logs.len().saturating_sub(count);
                for log in self.logs.iter_mut().skip(before) {
                    log.extend_from_slice(text)?;
                }
            }
        }
        Ok(true)
    }

    /// Sets the flow of the last texts. Returns false if there are none.
    pub(crate) fn set_source_flow(&mut self, flow: Flow) -> bool {
        self.names_flow = true;
        match self.target {
            Target::Nowhere => return false,
            Target::First => self.first_flow = flow,
            Target::Logs(count) => {
                let before = self.log_flows.len().saturating_sub(count);
                for log_flow in self.log_flows.iter_mut().skip(before) {
                    *log_flow = flow;
                }
            }
        }
        true
    }

    /// Sets the flow of the sink.
    pub(crate) fn set_sink_flow(&mut self, flow: Flow) {
        self.names_flow = true;
        self.sink_flow = flow;
    }

    /// The length of the last text in bytes.
    pub(crate) fn last_len(&self) -> usize {
        match self.target {
            Target::Nowhere => 0,
            Target::First => self.first.len(),
            Target::Logs(_) => self.logs.last().map_or(0, |log| log.len()),
        }
    }

    /// Sets the device that fails after each number of bytes. Returns false if there is no such
    /// device.
    pub(crate) fn set_failing(&mut self, failing_device: FailingDevice, flow: Flow) -> bool {
        self.failing_device = Some((failing_device, flow));
        self.set_failure(failing_device, flow)
    }

    /// Sets the flow of the device that fails. Returns false if there is no such device.
    pub(crate) fn set_failure(&mut self, failing_device: FailingDevice, flow: Flow) -> bool {
        match failing_device {
            FailingDevice::Source => self.set_source_flow(flow),
            FailingDevice::Sink => {
                self.set_sink_flow(flow);
                true
            }
        }
    }
}
