//! The lines of a script after the device is started.
//!
//! A `World` borrows the file that is offered to it. Each file therefore needs a new world, and so do the lines before and after the
//! session of a file. No new world is made for each line, because a world takes several kilobytes.

ghost use Rattle.std.specs.Prelude.{◌≡◌, ◌<◌, Ok, true, OnOk, IfOk, IfErr};
ghost use Rattle.dfu_sim.specs.LinkView.{NoLiveSession};
ghost use Rattle.dfu_link.specs.LineContent.{given_bytes};
ghost use Rattle.dfu_link.specs.Falls.{LineFails};
ghost use Rattle.dfu_link.specs.ScriptRun.{link_at_rest};
ghost use Rattle.dfu_link.specs.inside.Expected.{point_of_context};
ghost use Rattle.dfu_link.specs.inside.Source.{NextLineOrEnd, SourceLine, SourceState};
ghost use Rattle.dfu_link.specs.inside.Moving.{LineEnds, LineDoneOrDeferred, LinkOutcome, IsOfferedFileOf, SourceExhausted, IsUnarmed, LineDoneButEvents, LineFailsBeforeEvents, LinesDoneThenFailure};

use crate::scripting::event_parts::file_of;
use crate::scripting::expectation::{ScriptContext, expect};
use crate::scripting::fault::ScriptFault;
use crate::scripting::line::{EventLine, Line};
use crate::scripting::playing::{play_events, refuse_offer};
use crate::scripting::reading::{note_line, parse};
use crate::scripting::showing::{image_next, show_next};
use crate::scripting::source::LineReader;
use crate::trace::Tracer;
use dfu_device::Device;
use dfu_host::Limits;
use dfu_sim::World;
use dfu_slots::{Faulty, Medium};
use std::alloc::Global;
use std::io::{Read, Write};

/// Performs the line with this number. The events of an event line are not applied but returned; any other line returns None.
fn plain_line<'l, 'g, M: Medium, W: Write>(
    alloc: Global,
    device: &Device<M>,
    line: &'l [u8],
    number: u32,
    context: &mut ScriptContext<'g>,
    writer: &mut W,
) -> Result<Option<EventLine<'l, 'g>>, ScriptFault>
    ensures ok { IfOk result (λ events. LineDoneButEvents device.now context.old number line.now (W.contents writer.old) events context.new
        (W.contents writer.new)) }
    ensures fault { IfErr result (λ f. LineFailsBeforeEvents device.now context.old number line.now (W.contents writer.old)
        (W.contents writer.new) f) }
{
    match parse(context.given, line) {
        None => {
            note_line(context.stopped, context.given, line);
            Err(ScriptFault::BadLine(number))
        }
        Some(Line::Blank) => Ok(None),
        Some(Line::Set(_)) => Err(ScriptFault::LateConfig(number)),
        Some(Line::Limits { actions, restarts }) => {
            context.limits = Limits { actions, restarts };
            Ok(None)
        }
        Some(Line::Show) => {
            show_next(writer, &mut context.next, device)?;
            Ok(None)
        }
        Some(Line::Expect(text)) => {
            expect(alloc, &mut context.next, number, text)?;
            Ok(None)
        }
        Some(Line::Do(events)) => Ok(Some(events)),
    }
}

/// Performs the first line on the new link `world`. `file` is the file that the line offers; it is empty for any other line.
fn first_line<'f, T: Tracer<M>, M: Faulty, W: Write>(
    alloc: Global,
    world: &mut World<'f, M>,
    file: &'f [u8],
    line: &[u8],
    number: u32,
    context: &mut ScriptContext<'_>,
    writer: &mut W,
    tracer: &mut T,
) -> Result<(), ScriptFault>
    requires { IsOfferedFileOf (given_bytes context.old.given) line.now file.now }
    ensures { LineEnds number (point_of_context context.old world.old.bench) line.now (W.contents writer.old) (point_of_context context.new world.new.bench)
        (W.contents writer.new) result }
{
    match plain_line::<M, W>(alloc, world.device(), line, number, context, writer)? {
        None => Ok(()),
        Some(events) => {
            play_events::<T, M, W>(alloc, world, events, file, context, writer, tracer)
        }
    }
}

/// Performs a line that is not the first on its link. Returns true if the line is deferred to a new link, because it offers a file and no
/// session is live.
fn later_line<'f, T: Tracer<M>, M: Faulty, W: Write>(
    alloc: Global,
    world: &mut World<'f, M>,
    line: &[u8],
    number: u32,
    context: &mut ScriptContext<'_>,
    writer: &mut W,
    tracer: &mut T,
) -> Result<bool, ScriptFault>
    ensures ok { IfOk result (λ left. LineDoneOrDeferred number (point_of_context context.old world.old.bench) line.now (W.contents writer.old)
        (point_of_context context.new world.new.bench) (W.contents writer.new) left) }
    ensures fault { IfErr result (λ f. LineFails (point_of_context context.old world.old.bench) number line.now (W.contents writer.old)
        (W.contents writer.new) f) }
{
    let plain = plain_line::<M, W>(alloc, world.device(), line, number, context, writer)?;
    let Some(events) = plain else {
        return Ok(false);
    };
    match events {
        EventLine::Offer { .. } => {
            if !world.is_live() {
                return Ok(true);
            }
            refuse_offer::<M, W>(world, context, writer)?;
            Ok(false)
        }
        _ => {
            play_events::<T, M, W>(alloc, world, events, &[], context, writer, tracer)?;
            Ok(false)
        }
    }
}

/// Returns true if the link has a file that is not empty, and no session is live.
fn is_over<M: Faulty>(world: &World<'_, M>, file: &[u8]) -> bool
    ensures { result ≡ true → world.now.bench.session ≡ NoLiveSession }
{
    !world.is_live() && !file.is_empty()
}

/// Performs the current line of `source` on the new link `world`, and the lines after it. Stops before a line that offers a file while no
/// session is live. A link that has a file also stops before the first line after its session. After the last line, writes the line of the
/// image. Returns true if the current line of `source` is deferred to a new link.
fn run_link<'f, T: Tracer<M>, R: Read + Drop, M: Faulty, W: Write>(
    alloc: Global,
    world: &mut World<'f, M>,
    file: &'f [u8],
    source: &mut LineReader<R>,
    context: &mut ScriptContext<'_>,
    writer: &mut W,
    tracer: &mut T,
) -> Result<bool, ScriptFault>
    requires { IsOfferedFileOf (given_bytes context.old.given) source.old.line file.now }
    ensures less { result ≡ Ok true → source.new.room < source.old.room }
    ensures rest { result ≡ Ok true → world.new.bench.session ≡ NoLiveSession }
    ensures ok { IfOk result (λ left. (s : SourceState) → SourceLine s source.old → LinkOutcome (point_of_context context.old world.old.bench) s
        (W.contents writer.old) (point_of_context context.new world.new.bench) source.new (W.contents writer.new) left) }
    ensures fault { IfErr result (λ f. (s : SourceState) → SourceLine s source.old → LinesDoneThenFailure (point_of_context context.old world.old.bench) s
        (W.contents writer.old) (W.contents writer.new) f) }
{
    first_line::<T, M, W>(
        alloc,
        world,
        file,
        source.line(),
        source.number(),
        context,
        writer,
        tracer,
    )?;
    'lines: loop {
        if !source.next()? {
            image_next(writer, &mut context.next, world.device())?;
            return Ok(false);
        }
        if is_over(world, file) {
            return Ok(true);
        }
        if later_line::<T, M, W>(
            alloc,
            world,
            source.line(),
            source.number(),
            context,
            writer,
            tracer,
        )? {
            return Ok(true);
        }
    }
}

/// Performs the current line of `source` and all later ones, and writes the line of the image. Each line that `run_link` defers is the
/// first line of a new link.
fn run_links<T: Tracer<M>, R: Read + Drop, M: Faulty, W: Write>(
    alloc: Global,
    device: Device<M>,
    source: &mut LineReader<R>,
    context: &mut ScriptContext<'_>,
    writer: &mut W,
    tracer: &mut T,
) -> Result<(), ScriptFault>
    requires { IsUnarmed device }
    ensures ok { OnOk result ((s : SourceState) → SourceLine s source.old →
        SourceExhausted (point_of_context context.old (link_at_rest device)) s
        (W.contents writer.old) (W.contents writer.new)) }
    ensures fault { IfErr result (λ f. (s : SourceState) → SourceLine s source.old
        → LinesDoneThenFailure (point_of_context context.old (link_at_rest device)) s (W.contents writer.old) (W.contents writer.new) f) }
{
    let mut device = device;
    'links: loop {
        let file = file_of(alloc, context.given, source.line())?;
        let bytes = file.bytes();
        let mut world = World::new(alloc, device);
        let left = run_link::<T, R, M, W>(
            alloc, &mut world, bytes, source, context, writer, tracer,
        )?;
        if !left {
            return Ok(());
        }
        device = world.release();
    }
}

/// If `given` is true, performs the current line of `source` and all later ones. In both cases, writes the line of the image at the end.
pub(crate) fn run_on<T: Tracer<M>, R: Read + Drop, M: Faulty, W: Write>(
    alloc: Global,
    device: Device<M>,
    source: &mut LineReader<R>,
    given: bool,
    context: ScriptContext<'_>,
    writer: &mut W,
    tracer: &mut T,
) -> Result<(), ScriptFault>
    requires { IsUnarmed device }
    ensures ok { OnOk result ((s : SourceState) → NextLineOrEnd s given source.old
        → SourceExhausted (point_of_context context.entry (link_at_rest device)) s
        (W.contents writer.old) (W.contents writer.new)) }
    ensures fault { IfErr result (λ f. (s : SourceState) → NextLineOrEnd s given source.old
        → LinesDoneThenFailure (point_of_context context.entry (link_at_rest device)) s
        (W.contents writer.old) (W.contents writer.new) f) }
{
    let mut context = context;
    if given {
        run_links::<T, R, M, W>(alloc, device, source, &mut context, writer, tracer)
    } else {
        image_next(writer, &mut context.next, &device)
    }
}
