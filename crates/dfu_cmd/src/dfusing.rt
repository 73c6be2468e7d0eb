//! `dfu judge --dfuse`: judges the log of a DfuSe device.

use dfu_conformance::dfuse::DfuseJudge;
use dfu_conformance::{Departure, Line, LogEvent, Verdict};
use dfu_output::{
    Exit, LogFault, LogLines, dfuse_departure_text, fault_text, is_single, stop_text, verdict_text,
    write_out,
};
use dfu_suffix::{READ_BYTES, SuffixFault, write_whole};
use std::alloc::Global;
use std::io::{Read, Write};

/// Judge of a DfuSe device's log, with the counts for the verdict.
#[derive(Drop)]
struct FollowedDevice {
    judge: DfuseJudge,
    lines: LogLines,
    has_departed: bool,
    events: u64,
    // Number of events after which a single state was possible.
    single: u64,
}

impl FollowedDevice {
    /// Returns the state before the first byte of a log, or `None` if an allocation failed.
    fn new(alloc: Global) -> Option<FollowedDevice> {
        Some(FollowedDevice {
            judge: DfuseJudge::new(),
            lines: LogLines::new(alloc)?,
            has_departed: false,
            events: 0,
            single: 0,
        })
    }

    /// Judges the next event of the log. Returns the departure if the device departs from DfuSe at `event`.
    fn take_next_event(&mut self, event: &LogEvent) -> Option<Departure> {
        self.events = self.events.saturating_add(1);
        match self.judge.take(event) {
            Some(departure) => {
                self.has_departed = true;
                Some(departure)
            }
            None => {
                if is_single(&self.judge.at) {
                    self.single = self.single.saturating_add(1);
                }
                None
            }
        }
    }

    /// Takes the next byte of the log for DFU at `interface`. Returns the departure if `byte` ends a line at which the device departs from
    /// DfuSe.
    fn take(&mut self, interface: u8, byte: u8) -> Result<Option<Departure>, LogFault> {
        match self.lines.take(interface, byte)? {
            Some(Line::Came(event)) => Ok(self.take_next_event(&event)),
            Some(Line::Blank) | Some(Line::Elsewhere) | None => Ok(None),
        }
    }

    /// Returns the verdict on all events so far: NotKept if the device departed at one of them, and Kept otherwise.
    fn verdict(&self) -> Verdict {
        if self.has_departed {
            Verdict::NotKept
        } else {
            Verdict::Kept
        }
    }
}

/// Takes the next byte of the log. If `byte` ends a line at which the device departs from DfuSe, writes the departure to `writer`.
fn step<W: Write>(
    alloc: Global,
    interface: u8,
    followed: &mut FollowedDevice,
    byte: u8,
    writer: &mut W,
) -> Result<(), LogFault> {
    let Some(departure) = followed.take(interface, byte)? else {
        return Ok(());
    };
    let Ok(text) = dfuse_departure_text(alloc, followed.lines.number(), &departure) else {
        return Err(LogFault::NoMemory);
    };
    match write_whole(writer, text.as_bytes()) {
        Ok(()) => Ok(()),
        Err(_) => Err(LogFault::Write),
    }
}

/// Judges all bytes of `reader`, ends the last line, and writes each departure to `writer`.
fn judge_all<R: Read + Drop, W: Write>(
    alloc: Global,
    interface: u8,
    mut reader: R,
    followed: &mut FollowedDevice,
    writer: &mut W,
) -> Result<(), LogFault> {
    let mut piece = [0u8; READ_BYTES];
    for _turn in 0..u64::MAX {
        let Ok(count) = reader.read(&mut piece) else {
            return Err(LogFault::Read);
        };
        let came = piece.get(..count).unwrap_or(&[]);
        if came.is_empty() {
            break;
        }
        for byte in came {
            step(alloc, interface, followed, *byte, writer)?;
        }
    }
    step(alloc, interface, followed, b'\n', writer)
}

/// Writes the verdict on all events of the log to `writer`. Returns Done for Kept and Refused for NotKept, unless the line can't be made or
/// written.
fn write_verdict<W: Write>(alloc: Global, followed: &FollowedDevice, writer: &mut W) -> Exit {
    let verdict = followed.verdict();
    let exit = match verdict {
        Verdict::Kept => Exit::Done,
        _ => Exit::Refused,
    };
    let at = &followed.judge.at;
    match verdict_text(alloc, verdict, at, followed.events, followed.single) {
        Ok(line) => write_out(writer, line.as_bytes(), exit),
        Err(_) => fault_text(SuffixFault::NoMemory, writer),
    }
}

/// Judges the log of `reader` as `judge_with_fault` does, but against DfuSe. `kept` means that the device behaves as DfuSe requires.
pub(crate) fn judge_dfuse<R: Read + Drop, W: Write>(
    alloc: Global,
    interface: u8,
    reader: R,
    writer: &mut W,
) -> (Exit, Option<LogFault>) {
    let Some(mut followed) = FollowedDevice::new(alloc) else {
        let fault = LogFault::NoMemory;
        return (stop_text(alloc, fault, writer), Some(fault));
    };
    match judge_all(alloc, interface, reader, &mut followed, writer) {
        Ok(()) => (write_verdict(alloc, &followed, writer), None),
        Err(fault) => (stop_text(alloc, fault, writer), Some(fault)),
    }
}
