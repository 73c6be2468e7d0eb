//! The row of the phase that compares the image with the payload.

ghost use Rattle.std.specs.Prelude.{◌≡◌, ◌<◌, List, [], ℕ, length, slice_index_or};
ghost use Rattle.std.specs.Str.{bytes_eq};
ghost use Rattle.dfu_host.specs.inside.Comparing.{ComparedMeaning, IsCompared};
ghost use Rattle.dfu_host.specs.Table as table;
ghost use Rattle.dfu_host.specs.Table.{session_blocks};
ghost use Rattle.dfu_host.specs.InParts.{HasPhaseNeeds, phase_of};
ghost use Rattle.dfu_host.specs.inside.View.{meaning_of_heard, task_of_session};

use crate::fetching::MOST_PARTS;
use crate::heard::Heard;
use crate::phase::Phase;
use crate::report::Report;
use crate::task::Task;

impl Task<'_> {
    /// Compares `part` of the image with block `number` of the payload, and returns the result with the part's length.
    pub(crate) fn compare(&self, number: u16, part: &[u8]) -> Heard
        requires { HasPhaseNeeds self.now.goal self.now.transfer (Phase.Compare number) }
        ensures hears { result
            ≡ Heard.Compared (bytes_eq part.now (slice_index_or (session_blocks (task_of_session self.now)) number [])) (length part.now) }
    {
        Heard::Compared {
            same: part == self.block(number as usize),
            len: part.len(),
        }
    }

    /// Returns the phase after the UPLOAD of part `number`. `heard` contains the comparison of the part; any other meaning leads to Find.
    pub(crate) fn after_compare(&self, number: u16, heard: Heard) -> Phase
        requires { HasPhaseNeeds self.now.goal self.now.transfer (Phase.Compare number) }
        ensures next { (memory part : List ℕ) → ComparedMeaning (task_of_session self.now) (Phase.Compare number) part heard
            → phase_of memory result ≡ table.host_row (task_of_session self.now) (table.Compare number) (meaning_of_heard part heard) }
        ensures within { HasPhaseNeeds self.now.goal self.now.transfer result }
    {
        match heard {
            Heard::Compared { same, len } => self.compared(number, same, len),
            _ => Phase::Find,
        }
    }

    /// Returns the phase after a part of `len` bytes; `same` is true if the part equals the payload's block.
    fn compared(&self, number: u16, same: bool, len: usize) -> Phase
        requires { number < 65535 }
        ensures next { (memory part : List ℕ)
            → IsCompared (task_of_session self.now) number part same len
            → phase_of memory result ≡ table.compared_phase self.now.transfer number
            (slice_index_or (session_blocks (task_of_session self.now)) number []) part }
        ensures within { HasPhaseNeeds self.now.goal self.now.transfer result }
    {
        let transfer = self.transfer as usize;
        if len > transfer {
            Phase::Find
        } else if !same {
            Phase::Last(Report::Different)
        } else if len < transfer {
            Phase::Last(Report::Verified)
        } else if number + 1 == MOST_PARTS {
            Phase::Over(Report::TooManyBlocks)
        } else {
            Phase::Compare(number + 1)
        }
    }
}
