//! Reading the image back with UPLOAD.

ghost use Rattle.std.specs.Prelude.{◌≡◌};
ghost use Rattle.dfuse_host.specs.Table.{place_with_reading_begun, place_with_reading_ended, place_after_reading_abort, on_reading_abort, read_on, on_read};

use crate::command::cleared;
use crate::heard::Heard;
use crate::phase::Phase;
use crate::place::Place;
use crate::plan::Plan;
use crate::report::Report;
use crate::settling::stand;
use crate::step::Step;
use crate::work::Work;

/// Returns `place` after the device went to dfuIDLE for reading.
fn begun(place: Place) -> Place
    ensures { result ≡ place_with_reading_begun place }
{
    match place {
        Place::At(pointer) => Place::Reading(pointer),
        _ => place,
    }
}

/// Returns `place` after the device left dfuUPLOAD-IDLE.
fn place_after_reading(place: Place) -> Place
    ensures { result ≡ place_with_reading_ended place }
{
    match place {
        Place::Reading(pointer) => Place::At(pointer),
        _ => place,
    }
}

/// Returns `place` after `step`. An ABORT that begins or ends reading leaves the pointer at its address, and other steps change nothing.
fn place_after_step(step: Step, place: Place) -> Place
    ensures { result ≡ place_after_reading_abort step place }
{
    match step {
        Step::BeginReading => begun(place),
        Step::EndReading => place_after_reading(place),
        _ => place,
    }
}

impl Plan<'_> {
    ghost use Rattle.dfuse_host.specs.declared.work.Work.{Work};

    /// Returns the phase after the ABORT of `step`, which begins or ends reading.
    pub(crate) fn on_reading_abort(
        &self,
        work: Work,
        place: Place,
        step: Step,
        heard: &Heard,
    ) -> Phase
        ensures { result ≡ on_reading_abort self.now work place (place_after_reading_abort step place) step heard.now }
    {
        match heard {
            Heard::Acked => self.settle(work, place_after_step(step, place)),
            Heard::Stalled => cleared(work),
            _ => stand(work, place, step),
        }
    }

    /// Returns `work` after its next bytes were read back. A comparison goes on after these bytes, and other works stay unchanged.
    fn read_on(&self, work: Work) -> Work
        ensures { result ≡ read_on self.now work }
    {
        let end = self.end_of_work(work);
        match work {
            Work::Compare { at } => Work::Compare {
                at: self.read_end(at, end),
            },
            Work::CompareFront { at } => Work::CompareFront {
                at: self.read_end(at, end),
            },
            _ => work,
        }
    }

    /// Returns the phase after UPLOAD with the result `heard`.
    pub(crate) fn on_read(&self, work: Work, place: Place, heard: &Heard) -> Phase
        ensures { result ≡ on_read self.now work place heard.now }
    {
        match heard {
            Heard::Compared(true) => self.settle(self.read_on(work), place),
            Heard::Compared(false) => Phase::Over(Report::Different),
            Heard::Stalled => cleared(work),
            _ => stand(work, place, Step::Read),
        }
    }
}
