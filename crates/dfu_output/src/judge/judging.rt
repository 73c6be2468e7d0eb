//! Judging a log one byte at a time.

ghost use Rattle.std.specs.Prelude.{◌≡◌, ◌+◌, ◌<◌, ◌≤◌, ◌++◌, ◌∷◌, [], IfErr, IfOk, IfSome, List, None, OnOk, length, take, ℕ};
ghost use Rattle.dfu_conformance.specs.Verdict.{IsVerdict, ArePlacesAfter};
ghost use Rattle.dfu_output.specs.judge.Course.{LogCourse, CourseOfText, course_at_start};
ghost use Rattle.dfu_output.specs.judge.Judging.{CannotJudgeByte, readings_of};
ghost use Rattle.dfu_output.specs.judge.inside.JudgeState.{LogEventResult, IsStateAfter, JudgedText};

use crate::judge::fault::LogFault;
use crate::judge::lines::LogLines;
use crate::judge::texts::is_single;
use dfu_conformance::{Departure, Judge, Line, LogEvent, Verdict};
use std::alloc::Global;
use std::marker::Model;

/// State of judging a log.
///
/// In contracts it is a `JudgingState`.
#[derive(Drop)]
pub(crate) struct Judging {
    // Judge of the device, after the events so far.
    judge: Judge,
    // Reader of the log's lines.
    lines: LogLines,
    // Number of events.
    events: u64,
    // Number of events after which a single state was possible.
    single: u64,
}

impl Model for Judging {
    ghost use Rattle.std.specs.Prelude.{◌≤◌, ◌+◌};
    ghost use Rattle.dfu_output.specs.judge.inside.JudgeState.{JudgingState};

    ghost Value = { JudgingState };

    ghost view = { λ s. record {
      whole = s.judge.whole;
      since = s.judge.since;
      lines = s.lines;
      events = s.events;
      single = s.single;
    } };

    ghost invariant = { λ s. (s.events + s.lines.room ≤ 1099511627776) × (s.single ≤ s.events) };
}

impl Judging {
    /// Returns the state before the first byte of a log, or None if an allocation failed.
    pub(crate) fn new(alloc: Global) -> Option<Judging>
        ensures { IfSome result (λ s. IsStateAfter s [] course_at_start) }
    {
        let lines = LogLines::new(alloc)?;
        Some(Judging {
            judge: Judge::new(),
            lines,
            events: 0,
            single: 0,
        })
    }

    /// Returns the number of lines that have ended.
    pub(crate) fn number(&self) -> u64
        ensures { result ≡ self.now.lines.number }
    {
        self.lines.number()
    }

    /// Judges `event`, the next event of the log. Returns the departure if the device departs from the standard at this event.
    fn come(&mut self, event: &LogEvent) -> Option<Departure>
        requires slack { self.old.events + self.old.lines.room < 1099511627776 }
        ensures came { (text : List ℕ) (c : LogCourse) → IsStateAfter self.old text c → LogEventResult text c event.now result self.new }
        ensures lines { self.new.lines ≡ self.old.lines }
    {
        self.events += 1;
        match self.judge.take(event) {
            Some(departure) => Some(departure),
            None => {
                if is_single(&self.judge.standing()) {
                    self.single += 1;
                }
                None
            }
        }
    }

    /// Takes bytes of `bytes` until the next byte is 0Ah, or until the open line or the log has no room. Returns the number of bytes taken.
    pub(crate) fn take_inner(&mut self, bytes: &[u8]) -> usize
        ensures within { result ≤ length bytes.now }
        ensures state_after_text { (interface : ℕ) (text : List ℕ) (c : LogCourse) →
            IsStateAfter self.old text c → CourseOfText interface text c
            → JudgedText interface (text ++ take result bytes.now) c None self.new }
        ensures room { self.new.lines.room + result ≡ self.old.lines.room }
    {
        self.lines.take_inner(bytes)
    }

    /// Takes `byte`, the next byte of the log of a device whose DFU interface is `interface`. If `byte` ends a line at which the device
    /// departs from the standard, returns the departure.
    ///
    /// # Errors
    ///
    /// TooLarge if 1,099,511,627,776 bytes precede `byte`; BadLine if `byte` makes a line too long, or ends a line that isn't valid.
    pub(crate) fn take(&mut self, interface: u8, byte: u8) -> Result<Option<Departure>, LogFault>
        ensures ok { (text : List ℕ) (c : LogCourse) → IsStateAfter self.old text c → CourseOfText interface text c
            → IfOk result (λ o. JudgedText interface (text ++ byte ∷ []) c o self.new) }
        ensures err { (text : List ℕ) (c : LogCourse) → IsStateAfter self.old text c
            → IfErr result (λ f. (tail : List ℕ) → CannotJudgeByte interface text c (byte ∷ tail) f) }
        ensures room { OnOk result (self.new.lines.room + 1 ≡ self.old.lines.room) }
    {
        match self.lines.take(interface, byte) {
            Err(fault) => Err(fault),
            Ok(None) => Ok(None),
            Ok(Some(line)) => match line {
                Line::Came(event) => Ok(self.come(&event)),
                Line::Blank => Ok(None),
                Line::Elsewhere => Ok(None),
            },
        }
    }

    /// Returns the verdict on all events so far, and an array in which the element with the index of a state is true if a device with the
    /// habits of the verdict may be in this state.
    pub(crate) fn verdict(&self) -> (Verdict, [bool; 12])
        ensures { (text : List ℕ) (c : LogCourse) → IsStateAfter self.now text c
            → IsVerdict result.0 c.events × ArePlacesAfter (readings_of result.0) c.events result.1 }
    {
        let verdict = self.judge.verdict();
        match verdict {
            Verdict::Kept => (verdict, self.judge.places(0)),
            Verdict::KeptBy { readings } => (verdict, self.judge.places(readings)),
            Verdict::NotKept => (verdict, self.judge.places(0)),
        }
    }

    /// Returns the number of events, and the number of events after which a single state was possible.
    pub(crate) fn counts(&self) -> (u64, u64)
        ensures events { result.0 ≡ self.now.events }
        ensures single { result.1 ≡ self.now.single }
    {
        (self.events, self.single)
    }
}
