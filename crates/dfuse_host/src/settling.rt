//! Order of the works: the next work when the device is ready for a command.

ghost use Rattle.std.specs.Prelude.{◌≡◌};
ghost use Rattle.dfuse_host.specs.Settling.{address_if_before, byte_in, can_read, comparing_step, sending_step, settled_phase, phase_when_compared, phase_to_set_start, to_leave, to_compare_front, to_write_front, to_compare, to_write, to_erase};

use crate::image::{element_at, image_end, image_start, next_byte};
use crate::phase::{Phase, Standing};
use crate::place::Place;
use crate::plan::Plan;
use crate::report::{Leaving, Report};
use crate::step::Step;
use crate::work::Work;

/// Returns the phase with `work`, `place` and `step`.
pub(crate) fn stand(work: Work, place: Place, step: Step) -> Phase
    ensures { result ≡ Phase.On (record { work = work; place = place; step = step }) }
{
    Phase::On(Standing { work, place, step })
}

/// Returns the next step on the way to a command: `EndReading` if the session is reading, and `Send` otherwise.
fn sending(place: Place) -> Step
    ensures { result ≡ sending_step place }
{
    match place {
        Place::Lost | Place::At(_) => Step::Send,
        Place::Reading(_) => Step::EndReading,
    }
}

impl Plan<'_> {
    /// Returns the address of the image's next byte from `at` on, or None if it isn't below `end`.
    #[tactic(auto, using(std::proofs::lemmas::Bool::Decides::nat_tests), unfolding(crate::specs::Settling::byte_in))]
    fn byte_in(&self, at: u64, end: u64) -> Option<u64>
        ensures { result ≡ byte_in self.now at end }
    {
        match next_byte(at, self.image) {
            Some(byte) if byte < end => Some(byte),
            _ => None,
        }
    }

    /// Returns true if an UPLOAD block with a number of at most 65,535 begins at `at` when the pointer is set to `base`, and both addresses
    /// are in the same element.
    #[tactic(auto, using(std::proofs::lemmas::Bool::Decides::nat_tests), unfolding(crate::specs::Settling::can_read))]
    fn can_read(&self, base: u64, at: u64) -> bool
        ensures { result ≡ can_read self.now base at }
    {
        if at < base {
            return false;
        }
        let behind = at - base;
        let size = self.block_size();
        if behind % size != 0 || behind / size > 65533 {
            return false;
        }
        match element_at(at, self.image) {
            None => false,
            Some(element) => element.address as u64 <= base,
        }
    }

    /// Returns the next step on the way to an UPLOAD of the bytes at `at`: the pointer must be set to a suitable address, and the device
    /// must be ready for reading.
    #[tactic(auto, using(std::proofs::lemmas::Bool::Decides::nat_tests))]
    fn read_step(&self, at: u64, place: Place) -> Step
        ensures { result ≡ comparing_step self.now at place }
    {
        match place {
            Place::Lost => Step::Send,
            Place::At(pointer) if pointer == at => Step::BeginReading,
            Place::At(_) => Step::Send,
            Place::Reading(base) if self.can_read(base, at) => Step::Read,
            Place::Reading(_) => Step::EndReading,
        }
    }

    /// Returns the phase after the whole image was compared.
    #[tactic(auto, using(std::proofs::lemmas::Bool::Decides::nat_tests), unfolding(crate::specs::Settling::to_leave))]
    fn to_leave(&self, place: Place) -> Phase
        ensures { result ≡ to_leave self.now place }
    {
        match place {
            Place::Reading(_) => stand(Work::Leave, place, Step::EndReading),
            _ if !self.leaves => Phase::Over(Report::Verified(Leaving::Stayed)),
            Place::At(pointer) if pointer == self.start as u64 => stand(
                Work::Leave,
                place,
                Step::Close,
            ),
            _ => stand(Work::Leave, place, Step::Send),
        }
    }

    /// Returns the phase that compares the front from `at` on.
    #[tactic(auto, unfolding(crate::specs::Settling::to_compare_front))]
    fn to_compare_front(&self, place: Place, at: u64) -> Phase
        ensures { result ≡ to_compare_front self.now place at }
    {
        match self.byte_in(at, self.front_end()) {
            None => self.to_leave(place),
            Some(at) => stand(Work::CompareFront { at }, place, self.read_step(at, place)),
        }
    }

    /// Returns the phase that writes the front from `at` on.
    #[tactic(auto, unfolding(crate::specs::Settling::to_write_front))]
    pub(crate) fn to_write_front(&self, place: Place, at: u64) -> Phase
        ensures { result ≡ to_write_front self.now place at }
    {
        match self.byte_in(at, self.front_end()) {
            None => self.to_compare_front(place, image_start(self.image)),
            Some(at) => stand(Work::WriteFront { at }, place, sending(place)),
        }
    }

    /// Returns the phase that compares the image after the front, from `at` on.
    #[tactic(auto, unfolding(crate::specs::Settling::to_compare))]
    fn to_compare(&self, place: Place, at: u64) -> Phase
        ensures { result ≡ to_compare self.now place at }
    {
        match self.byte_in(at, image_end(self.image)) {
            None => self.to_write_front(place, image_start(self.image)),
            Some(at) => stand(Work::Compare { at }, place, self.read_step(at, place)),
        }
    }

    /// Returns the phase that writes the image from `at` up to `end`.
    #[tactic(auto, unfolding(crate::specs::Settling::to_write))]
    pub(crate) fn to_write(&self, place: Place, at: u64, end: u64) -> Phase
        ensures { result ≡ to_write self.now place at end }
    {
        match self.byte_in(at, end) {
            None => self.to_compare(place, self.front_end()),
            Some(at) => stand(Work::Write { at, end }, place, sending(place)),
        }
    }

    /// Returns the phase that erases the pages of the image from `at` on.
    #[tactic(auto, unfolding(crate::specs::Settling::to_erase))]
    pub(crate) fn to_erase(&self, place: Place, at: u64) -> Phase
        ensures { result ≡ to_erase self.now place at }
    {
        match self.byte_in(at, image_end(self.image)) {
            None => self.to_write(place, self.front_end(), image_end(self.image)),
            Some(at) => stand(Work::Erase { at }, place, sending(place)),
        }
    }

    /// Returns the next phase of `work` when the device is ready for a command.
    #[tactic(auto, unfolding(crate::specs::Settling::settled_phase))]
    pub(crate) fn settle(&self, work: Work, place: Place) -> Phase
        ensures { result ≡ settled_phase self.now work place }
    {
        match work {
            Work::Erase { at } => self.to_erase(place, at),
            Work::EraseAgain { page, end } => {
                stand(Work::EraseAgain { page, end }, place, sending(place))
            }
            Work::Write { at, end } => self.to_write(place, at, end),
            Work::Compare { at } => self.to_compare(place, at),
            Work::WriteFront { at } => self.to_write_front(place, at),
            Work::CompareFront { at } => self.to_compare_front(place, at),
            Work::Leave => self.to_leave(place),
        }
    }
}
