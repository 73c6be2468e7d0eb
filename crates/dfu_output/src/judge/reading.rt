//! `dfu judge`: judges a log, and writes its departures and the verdict.

ghost use Rattle.std.specs.Prelude.{◌≡◌, ◌+◌, ◌<◌, ◌≤◌, ◌++◌, ◌∷◌, [], IfErr, IfOk, IfSome, List, OnOk, Option, length, take, ℕ};
ghost use Rattle.std.specs.Io.KnownBytes.{Appends};
ghost use Rattle.dfu_output.specs.judge.Judging.{DepartureUnwritten, LogStops, WritesJudgment, WritesAboutLog, WritesVerdict, exit_of};
ghost use Rattle.dfu_output.specs.judge.Texts.{departure_text};
ghost use Rattle.dfu_output.specs.judge.inside.JudgeState.{JudgedSoFar};

use crate::exit::{Exit, fault_text, write_out};
use crate::judge::fault::{LogFault, stop_text};
use crate::judge::judging::Judging;
use crate::judge::texts::{departure_text, verdict_text};
use dfu_conformance::{Departure, Verdict};
use dfu_suffix::{READ_BYTES, SuffixFault, write_whole};
use std::alloc::Global;
use std::io::{Read, Write};

/// Writes the lines of `departure` at line `number` of a log.
fn tell<W: Write>(
    alloc: Global,
    number: u64,
    departure: &Departure,
    writer: &mut W,
) -> Result<(), LogFault>
    ensures ok { OnOk result (Appends (W.contents writer.old) (W.contents writer.new) (departure_text number departure.now)) }
    ensures err { IfErr result
        (λ f. DepartureUnwritten (departure_text number departure.now) (W.contents writer.old) (W.contents writer.new) f) }
{
    match departure_text(alloc, number, departure) {
        Ok(text) => match write_whole(writer, text.as_bytes()) {
            Ok(()) => Ok(()),
            Err(_) => Err(LogFault::Write),
        },
        Err(_) => Err(LogFault::NoMemory),
    }
}

/// Takes `byte`, the next byte of the log of a device whose DFU interface is `interface`. If `byte` ends a line at which the device departs
/// from the standard, writes the departure to `writer`.
fn step<W: Write>(
    alloc: Global,
    interface: u8,
    judging: &mut Judging,
    byte: u8,
    writer: &mut W,
) -> Result<(), LogFault>
    ensures ok { (old : Option (List ℕ)) (text : List ℕ) → JudgedSoFar interface old (W.contents writer.old) text judging.old
        → OnOk result (JudgedSoFar interface old (W.contents writer.new) (text ++ byte ∷ []) judging.new) }
    ensures err { (old : Option (List ℕ)) (text : List ℕ) → JudgedSoFar interface old (W.contents writer.old) text judging.old
        → IfErr result (λ f. (tail : List ℕ) → LogStops interface old (W.contents writer.new) (text ++ byte ∷ tail) f) }
    ensures room { OnOk result (judging.new.lines.room + 1 ≡ judging.old.lines.room) }
{
    match judging.take(interface, byte) {
        Ok(None) => Ok(()),
        Ok(Some(departure)) => match tell(alloc, judging.number(), &departure, writer) {
            Ok(()) => Ok(()),
            Err(fault) => Err(fault),
        },
        Err(fault) => Err(fault),
    }
}

/// Takes bytes of `rest`, the unjudged bytes of the log, up to and including the first 0Ah, or all of them if there is none. Writes the
/// departure at that line, if any, to `writer`. Returns the number of bytes taken, at least 1.
fn advance<W: Write>(
    alloc: Global,
    interface: u8,
    judging: &mut Judging,
    rest: &[u8],
    writer: &mut W,
) -> Result<usize, LogFault>
    requires { 0 < length rest.now }
    ensures within { IfOk result (λ n. (0 < n) × (n ≤ length rest.now)) }
    ensures ok { (old : Option (List ℕ)) (text : List ℕ) → JudgedSoFar interface old (W.contents writer.old) text judging.old
        → IfOk result (λ n. JudgedSoFar interface old (W.contents writer.new) (text ++ take n rest.now) judging.new) }
    ensures err { (old : Option (List ℕ)) (text : List ℕ) → JudgedSoFar interface old (W.contents writer.old) text judging.old
        → IfErr result (λ f. (tail : List ℕ) → LogStops interface old (W.contents writer.new) ((text ++ rest.now) ++ tail) f) }
    ensures room { IfOk result (λ n. judging.new.lines.room + n ≡ judging.old.lines.room) }
{
    let count = judging.take_inner(rest);
    if count == rest.len() {
        return Ok(count);
    }
    match step(alloc, interface, judging, rest[count], writer) {
        Ok(()) => Ok(count + 1),
        Err(fault) => Err(fault),
    }
}

/// Takes all bytes of `piece`, the next piece of the log, and writes each departure in it to `writer`.
fn feed<W: Write>(
    alloc: Global,
    interface: u8,
    judging: &mut Judging,
    piece: &[u8],
    writer: &mut W,
) -> Result<(), LogFault>
    ensures ok { (old : Option (List ℕ)) (text : List ℕ) → JudgedSoFar interface old (W.contents writer.old) text judging.old
        → OnOk result (JudgedSoFar interface old (W.contents writer.new) (text ++ piece.now) judging.new) }
    ensures err { (old : Option (List ℕ)) (text : List ℕ) → JudgedSoFar interface old (W.contents writer.old) text judging.old
        → IfErr result (λ f. (tail : List ℕ) → LogStops interface old (W.contents writer.new) ((text ++ piece.now) ++ tail) f) }
    ensures room { OnOk result (judging.new.lines.room + length piece.now ≡ judging.old.lines.room) }
{
    let mut at = 0usize;
    while at < piece.len() {
        match advance(alloc, interface, judging, &piece[at..], writer) {
            Ok(count) => at += count,
            Err(fault) => return Err(fault),
        }
    }
    Ok(())
}

/// Judges all bytes of `reader`, ends the last line, and writes each departure to `writer`.
fn judge_all<R: Read + Drop, W: Write>(
    alloc: Global,
    interface: u8,
    mut reader: R,
    judging: &mut Judging,
    writer: &mut W,
) -> Result<(), LogFault>
    ensures ok { (old : Option (List ℕ)) → JudgedSoFar interface old (W.contents writer.old) [] judging.old → IfSome (R.remaining reader)
        (λ text. OnOk result (JudgedSoFar interface old (W.contents writer.new) (text ++ 10 ∷ []) judging.new)) }
    ensures err { (old : Option (List ℕ)) → JudgedSoFar interface old (W.contents writer.old) [] judging.old → IfSome (R.remaining reader)
        (λ text. IfErr result (λ f. LogStops interface old (W.contents writer.new) (text ++ 10 ∷ []) f)) }
{
    let mut piece = [0u8; READ_BYTES];
    'pieces: loop {
        match reader.read(&mut piece) {
            Ok(count) => {
                if count == 0 {
                    return step(alloc, interface, judging, b'\n', writer);
                }
                match feed(alloc, interface, judging, &piece[..count], writer) {
                    Ok(()) => {}
                    Err(fault) => return Err(fault),
                }
            }
            Err(_) => return Err(LogFault::Read),
        }
    }
}

/// Returns the exit for `verdict`: Done for `Kept`, and Refused otherwise.
fn exit_of(verdict: Verdict) -> Exit
    ensures { result ≡ exit_of verdict }
{
    match verdict {
        Verdict::Kept => Exit::Done,
        _ => Exit::Refused,
    }
}

/// Writes the line of the verdict on all events of the log, or `refused NoMemory`, and returns the exit.
fn verdict_out<W: Write>(alloc: Global, judging: &Judging, writer: &mut W) -> Exit
    ensures { (interface : ℕ) (old : Option (List ℕ)) (text : List ℕ)
        (g : JudgedSoFar interface old (W.contents writer.old) text judging.now)
        → WritesVerdict g.course old (W.contents writer.new) result }
{
    let (verdict, at) = judging.verdict();
    let (events, single) = judging.counts();
    match verdict_text(alloc, verdict, &at, events, single) {
        Ok(line) => write_out(writer, line.as_bytes(), exit_of(verdict)),
        Err(_) => fault_text(SuffixFault::NoMemory, writer),
    }
}

/// Judges a log as `judge_text` does. Returns the exit, and the fault at which judging stopped, if there is one.
pub fn judge_with_fault<R: Read + Drop, W: Write>(
    alloc: Global,
    interface: u8,
    reader: R,
    writer: &mut W,
) -> (Exit, Option<LogFault>)
    ensures { WritesJudgment interface (R.remaining reader) (W.contents writer.old) (W.contents writer.new) result.0 result.1 }
{
    let Some(mut judging) = Judging::new(alloc) else {
        let fault = LogFault::NoMemory;
        return (stop_text(alloc, fault, writer), Some(fault));
    };
    match judge_all(alloc, interface, reader, &mut judging, writer) {
        Ok(()) => (verdict_out(alloc, &judging, writer), None),
        Err(fault) => (stop_text(alloc, fault, writer), Some(fault)),
    }
}

/// Judges the reader's log of a device whose DFU interface is `interface`, and ignores requests to other interfaces. Each departure is
/// written as soon as it is found, with the answers that were allowed, and the verdict is written at the end. docs/FILES.md describes the
/// lines. The exit is Done if the verdict is `kept` without habits, and Refused otherwise.
///
/// If judging stops early, the last line is `refused BadLine N` or `refused NAME` with Refused, or `fault Read` with Fault. It follows the
/// departures that were found before. A line of the log and the printed lines need memory. If it runs out, the line is `refused NoMemory`.
/// If the writer fails, the exit is Fault, and only a proper prefix of the text is written.
pub fn judge_text<R: Read + Drop, W: Write>(
    alloc: Global,
    interface: u8,
    reader: R,
    writer: &mut W,
) -> Exit
    ensures { WritesAboutLog interface (R.remaining reader) (W.contents writer.old) (W.contents writer.new) result }
{
    let (exit, _) = judge_with_fault(alloc, interface, reader, writer);
    exit
}
