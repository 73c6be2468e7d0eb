//! Plays the events of an event line.

ghost use Rattle.std.specs.Prelude.{◌≡◌, ◌≢◌, ℕ, List, Option, None, Ok, true, false, [], ◌∷◌, replicate};
ghost use Rattle.dfu_device.specs.Candidate.{candidate_in};
ghost use Rattle.dfu_sim.specs.LinkView.{BenchMatchesFlash};
ghost use Rattle.dfu_sim.specs.EventResults.{WorldEventResult};
ghost use Rattle.dfu_sim.specs.Happening.{Goes, fate_of, harm_of_fate, happening};
ghost use Rattle.dfu_link.specs.ScriptRun.{is_accepted, checked_event, checked_fate};
ghost use Rattle.dfu_sim.specs.LinkView.{IsLive};
ghost use Rattle.dfu_link.specs.LineContent.{Does, GoesOn, Offer, content_of_event, harmed_line};
ghost use Rattle.dfu_link.specs.inside.Expected.{expectation_of, point_of_parts, point_of_context};
ghost use Rattle.dfu_link.specs.inside.Moving.{PlayEnds, LineOutcome, offered_file_of};

use crate::scripting::event_parts::{begins, harmed, offered};
use crate::scripting::expectation::{Expectation, ScriptContext};
use crate::scripting::fault::ScriptFault;
use crate::scripting::line::{EventLine, HarmKind, HexText};
use crate::scripting::saying::say_next;
use crate::scripting::starting::bytes_of;
use crate::trace::Tracer;
use dfu_device::{Device, Objection};
use dfu_host::{Limits, Report};
use dfu_sim::{Event, Fate, LinkFault, Purpose, World};
use dfu_slots::{Faulty, Medium};
use std::alloc::Global;
use std::io::Write;

/// Applies `event`, which is not an action of the host, to `world`, and writes the line that it prints, if there is one.
fn play<'f, M: Faulty, W: Write>(
    world: &mut World<'f, M>,
    event: Event<'f, '_>,
    next: &mut Option<Expectation>,
    writer: &mut W,
) -> Result<(), ScriptFault>
    ensures { (check : List ℕ) → checked_event check world.old.bench (happening event.entry) ≡ happening event.entry →
        PlayEnds check world.old.bench (expectation_of next.old) (happening event.entry ∷ []) (W.contents writer.old) world.new.bench
        (expectation_of next.new) (W.contents writer.new) result }
{
    let answer = world.step(event);
    say_next(writer, next, answer, world.uploaded())
}

/// Returns true if the image that the device received begins with `check`, so that the device's program accepts the image, or if the device
/// has received none. An empty `check` accepts every image without reading it.
fn is_accepted<M: Medium>(device: &Device<M>, check: &[u8]) -> bool
    ensures { result ≡ is_accepted check.now (candidate_in device.now.stage) }
{
    if check.is_empty() {
        return true;
    }
    match device.candidate() {
        None => true,
        Some(candidate) => begins::<M>(device.slots(), candidate, check),
    }
}

/// Makes the event of an action with `fate`. If the device has received an image that does not begin with `check`, the device's program
/// refuses that image when the action closes it.
fn checked<'f, 't, M: Medium>(device: &Device<M>, check: &[u8], fate: Fate<'t>) -> Event<'f, 't>
    ensures { happening result ≡ Goes (checked_fate check.now device.now (fate_of fate.entry)) (harm_of_fate fate.entry) }
{
    if is_accepted::<M>(device, check) {
        Event::Go(fate)
    } else {
        Event::GoRefused {
            fate,
            objection: Objection::File,
        }
    }
}

/// Performs an action of the host with `fate`, and passes the link to `tracer` before and after it. If the action closes an image that does
/// not begin with `check`, the device's program refuses the image. The caller must write the line of the action.
fn take<'f, T: Tracer<M>, M: Faulty>(
    world: &mut World<'f, M>,
    fate: Fate<'_>,
    check: &[u8],
    tracer: &mut T,
) -> Result<Option<Report>, LinkFault>
    ensures play { WorldEventResult world.old (checked_event check.now world.old.bench (Goes (fate_of fate.entry) (harm_of_fate fate.entry)))
        world.new result }
    ensures active { BenchMatchesFlash world.new.bench }
{
    let before = tracer.snapshot(world);
    let event = checked::<M>(world.device(), check, fate);
    let answer = world.step(event);
    if let Some(before) = before {
        tracer.write_action(&before, fate, world);
    }
    answer
}

/// Returns true if an event with this answer prints nothing.
fn is_silent(answer: Result<Option<Report>, LinkFault>) -> bool
    ensures silent { result ≡ true → answer ≡ Ok None }
    ensures told { result ≡ false → answer ≢ Ok None }
{
    match answer {
        Ok(None) => true,
        Ok(Some(_)) | Err(_) => false,
    }
}

/// Performs `times` actions of the host with `fate`, and writes the lines that they print.
fn play_actions<'f, T: Tracer<M>, M: Faulty, W: Write>(
    world: &mut World<'f, M>,
    fate: Fate<'_>,
    times: u32,
    check: &[u8],
    next: &mut Option<Expectation>,
    writer: &mut W,
    tracer: &mut T,
) -> Result<(), ScriptFault>
    ensures { PlayEnds check.now world.old.bench (expectation_of next.old)
        (replicate times (Goes (fate_of fate.entry) (harm_of_fate fate.entry)))
        (W.contents writer.old) world.new.bench (expectation_of next.new) (W.contents writer.new) result }
{
    for turn in 0..times {
        let answer = take::<T, M>(world, fate, check, tracer);
        if is_silent(answer) {
            continue;
        }
        say_next(writer, next, answer, world.uploaded())?;
    }
    Ok(())
}

/// Performs actions of the host with the fate `Pass`, until one prints a line: the report of its session, or a refusal if no session is
/// live.
fn pass_on<'f, T: Tracer<M>, M: Faulty, W: Write>(
    world: &mut World<'f, M>,
    check: &[u8],
    next: &mut Option<Expectation>,
    writer: &mut W,
    tracer: &mut T,
) -> Result<(), ScriptFault>
    ensures { (given : Option (List ℕ)) (limits : Limits) →
        LineOutcome (point_of_parts given check.now limits (expectation_of next.old) world.old.bench) GoesOn (W.contents writer.old)
        (point_of_parts given check.now limits (expectation_of next.new) world.new.bench) (W.contents writer.new) result }
{
    'passes: loop {
        let answer = take::<T, M>(world, Fate::Pass, check, tracer);
        if !is_silent(answer) {
            return say_next(writer, next, answer, world.uploaded());
        }
    }
}

/// Performs an action of the host in which the first `writes` writes succeed, and the next one is torn with the bytes of `tear`. `harm` is
/// the kind of the harm. Writes the line that the action prints, if there is one. Allocates memory for the bytes of the tear.
fn play_harmed<'f, T: Tracer<M>, M: Faulty, W: Write>(
    alloc: Global,
    world: &mut World<'f, M>,
    harm: HarmKind,
    writes: u32,
    tear: HexText<'_>,
    check: &[u8],
    next: &mut Option<Expectation>,
    writer: &mut W,
    tracer: &mut T,
) -> Result<(), ScriptFault>
    ensures { (given : Option (List ℕ)) (limits : Limits) →
        LineOutcome (point_of_parts given check.now limits (expectation_of next.old) world.old.bench) (harmed_line harm writes tear.entry)
        (W.contents writer.old)
        (point_of_parts given check.now limits (expectation_of next.new) world.new.bench) (W.contents writer.new) result }
{
    let torn = bytes_of(alloc, tear)?;
    let fate = harmed(harm, writes, &torn);
    play_actions::<T, M, W>(world, fate, 1, check, next, writer, tracer)
}

/// Plays the events of a line, and writes the lines that they print. Allocates memory for the bytes of a tear.
pub(crate) fn play_events<'f, T: Tracer<M>, M: Faulty, W: Write>(
    alloc: Global,
    world: &mut World<'f, M>,
    events: EventLine<'_, '_>,
    file: &'f [u8],
    context: &mut ScriptContext<'_>,
    writer: &mut W,
    tracer: &mut T,
) -> Result<(), ScriptFault>
    requires { file.now ≡ offered_file_of (content_of_event events) }
    ensures { LineOutcome (point_of_context context.old world.old.bench) (content_of_event events.entry) (W.contents writer.old)
        (point_of_context context.new world.new.bench)
        (W.contents writer.new) result }
{
    let limits = context.limits;
    let check = context.check;
    let next = &mut context.next;
    match events {
        EventLine::Offer { purpose, .. } => {
            play::<M, W>(world, offered(purpose, file, limits), next, writer)
        }
        EventLine::Upload => play::<M, W>(world, Event::Upload { limits }, next, writer),
        EventLine::Abort => play::<M, W>(world, Event::Abort, next, writer),
        EventLine::Go { fate, times } => {
            play_actions::<T, M, W>(world, fate, times, check, next, writer, tracer)
        }
        EventLine::GoHarmed { harm, writes, tear } => play_harmed::<T, M, W>(
            alloc, world, harm, writes, tear, check, next, writer, tracer,
        ),
        EventLine::GoOn => pass_on::<T, M, W>(world, check, next, writer, tracer),
        EventLine::Time(ms) => {
            tracer.add_time(ms);
            play::<M, W>(world, Event::Time(ms), next, writer)
        }
        EventLine::Reset => play::<M, W>(world, Event::Reset, next, writer),
        EventLine::Cut => play::<M, W>(world, Event::Cut, next, writer),
        EventLine::Refuse(why) => play::<M, W>(world, Event::Refuse(why), next, writer),
    }
}

/// Refuses an offer because a session is live, and writes the line of the refusal.
pub(crate) fn refuse_offer<'f, M: Faulty, W: Write>(
    world: &World<'f, M>,
    context: &mut ScriptContext<'_>,
    writer: &mut W,
) -> Result<(), ScriptFault>
    requires { IsLive world.now.bench.session }
    ensures { (purpose : Purpose) (file : List ℕ) →
        LineOutcome (point_of_context context.old world.now.bench) (Does (Offer purpose file)) (W.contents writer.old)
        (point_of_context context.new world.now.bench) (W.contents writer.new) result }
{
    // The proof needs the clause `active` of this call, by which the bench shows the active image.
    let _ = world.device();
    say_next(writer, &mut context.next, Err(LinkFault::HostBusy), &[])
}
