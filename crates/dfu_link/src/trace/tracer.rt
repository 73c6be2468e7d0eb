//! The trace of a script, with a line for each action of the host. Its writer changes neither the run nor its printed text.

use crate::trace::words::Words;
use dfu_device::Answer;
use dfu_host::{Action, Phase};
use dfu_sim::{Fate, World};
use dfu_slots::{Faulty, SimMedium};
use dfu_suffix::write_whole;
use dfu_wire::{Request, Setup, State};
use std::alloc::Global;
use std::io::Write;

/// Returns the milliseconds that pass in an action: those of a slip, else those of a wait, else 0.
fn time_of(action: Action<'_>, fate: Fate<'_>) -> u32 {
    match (action, fate) {
        (_, Fate::Slip(ms)) => ms,
        (Action::Wait(ms), _) => ms,
        _ => 0,
    }
}

/// Numbers of a line of the trace: the number of its action, counted from 1, and the milliseconds since the start of the script.
#[derive(Clone, Copy)]
pub(crate) struct Count {
    pub number: u64,
    pub ms: u64,
}

/// State of a link before an action of its host.
#[derive(Drop)]
pub(crate) struct Snapshot<'f> {
    pub phase: Phase,
    pub action: Action<'f>,
    pub state: State,
    /// Number of writes that the medium had made before the action.
    pub writes: u64,
}

/// Returns the request of `action`, or NotDfu if it sends none.
fn request_in(action: Action<'_>) -> Request {
    match action {
        Action::Send { setup, .. } => Setup::decode(&setup).request(),
        Action::Wait(_) | Action::Reset | Action::Done(_) => Request::NotDfu,
    }
}

/// Appends the bytes of an answer: a status for GETSTATUS, a state for GETSTATE, and only their number for any other request.
fn push_bytes(line: &mut Words, request: Request, out: &[u8]) {
    match request {
        Request::GetStatus { .. } => line.push_status(out),
        Request::GetState { .. } => line.push_state(out),
        Request::Detach { .. }
        | Request::Dnload { .. }
        | Request::Upload { .. }
        | Request::ClrStatus
        | Request::Abort
        | Request::OtherClass
        | Request::NotDfu => line.push_count(out),
    }
}

/// Appends the device's answer to an action: `ack`, `stall`, the bytes, or `-` for none.
fn push_device_answer(line: &mut Words, action: Action<'_>, answered: Option<(Answer, &[u8])>) {
    match answered {
        Some((Answer::Ack, _)) => line.push("ack"),
        Some((Answer::Stall, _)) => line.push("stall"),
        Some((Answer::Bytes, out)) => push_bytes(line, request_in(action), out),
        None => line.push("-"),
    }
}

/// Appends the answer of the device, or `-` after a cut of the power.
fn push_answer(
    line: &mut Words,
    action: Action<'_>,
    fate: Fate<'_>,
    answered: Option<(Answer, &[u8])>,
) {
    match fate {
        Fate::Cut { .. } => line.push("-"),
        _ => push_device_answer(line, action, answered),
    }
}

/// Appends `; ` and the name of a state.
fn push_state_name(line: &mut Words, state: State) {
    line.push("; ");
    line.push(state.name());
}

/// Appends the action: its number, the phase of the host, the request, wait or reset, and the fate.
fn push_asked_action(line: &mut Words, number: u64, before: &Snapshot<'_>, fate: Fate<'_>) {
    line.push_number("# ", number);
    line.push(" ");
    line.push_phase(before.phase);
    line.push("; ");
    line.push_action(before.action);
    line.push("; ");
    line.push_fate(fate);
}

/// Appends the result of the action: the answer, the state of the device before and after, the writes of its medium, and the time.
fn push_result(
    line: &mut Words,
    ms: u64,
    before: &Snapshot<'_>,
    fate: Fate<'_>,
    world: &World<'_, SimMedium>,
) {
    let device = world.device();
    line.push("; ");
    push_answer(line, before.action, fate, world.answered());
    push_state_name(line, before.state);
    push_state_name(line, device.state());
    line.push("; ");
    line.push_writes(device.slots().medium().noted(), before.writes);
    line.push_number("; ", ms);
    line.push(" ms\n");
}

/// Returns the line of an action, from its number to the time, or None if there is no memory for it.
fn step_line(
    alloc: Global,
    count: Count,
    before: &Snapshot<'_>,
    fate: Fate<'_>,
    world: &World<'_, SimMedium>,
) -> Option<String> {
    let mut line = Words::new(alloc);
    push_asked_action(&mut line, count.number, before, fate);
    push_result(&mut line, count.ms, before, fate, world);
    line.into_text()
}

/// Tracer of a run. It gets the link before and after each action of the host.
pub(crate) trait Tracer<M: Faulty> {
    /// Returns the state of a link before an action of its host, if a session is live.
    fn snapshot<'f>(&self, world: &World<'f, M>) -> Option<Snapshot<'f>>;

    /// Writes the line of an action, from the link before it, its fate, and the link after it.
    fn write_action(&mut self, before: &Snapshot<'_>, fate: Fate<'_>, world: &World<'_, M>);

    /// Adds these milliseconds to the time since the start of the script.
    fn add_time(&mut self, ms: u32);
}

/// Tracer that writes no trace.
#[derive(Drop)]
pub(crate) struct NoTrace;

impl<M: Faulty> Tracer<M> for NoTrace {
    fn snapshot<'f>(&self, _: &World<'f, M>) -> Option<Snapshot<'f>> {
        None
    }

    fn write_action(&mut self, _: &Snapshot<'_>, _: Fate<'_>, _: &World<'_, M>) {}

    fn add_time(&mut self, _: u32) {}
}

/// Tracer that writes a line for each action. Once a line can't be written, it writes no more lines.
#[derive(Drop)]
pub(crate) struct TraceWriter<'n, N> {
    pub writer: &'n mut N,
    pub is_broken: bool,
    pub count: Count,
    pub alloc: Global,
}

impl<'n, N> TraceWriter<'n, N> {
    /// Makes a tracer that writes to `writer`.
    pub(crate) fn new(alloc: Global, writer: &'n mut N) -> TraceWriter<'n, N> {
        TraceWriter {
            writer,
            is_broken: false,
            count: Count { number: 0, ms: 0 },
            alloc,
        }
    }
}

impl<N: Write> Tracer<SimMedium> for TraceWriter<'_, N> {
    fn snapshot<'f>(&self, world: &World<'f, SimMedium>) -> Option<Snapshot<'f>> {
        let (phase, action) = world.asks()?;
        let device = world.device();
        Some(Snapshot {
            phase,
            action,
            state: device.state(),
            writes: device.slots().medium().noted().count,
        })
    }

    fn write_action(
        &mut self,
        before: &Snapshot<'_>,
        fate: Fate<'_>,
        world: &World<'_, SimMedium>,
    ) {
        self.count.number = self.count.number.wrapping_add(1);
        self.add_time(time_of(before.action, fate));
        if self.is_broken {
            return;
        }
        self.is_broken = match step_line(self.alloc, self.count, before, fate, world) {
            Some(line) => write_whole(self.writer, line.as_bytes()).is_err(),
            None => true,
        };
    }

    fn add_time(&mut self, ms: u32) {
        self.count.ms = self.count.ms.saturating_add(u64::from(ms));
    }
}
