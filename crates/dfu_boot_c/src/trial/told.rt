//! Records that describe a trial to a program in C: the standing of the images, the image that starts, and the operation to carry out.
ghost use Rattle.std.specs.Prelude.{◌≡◌, ◌+◌, ◌≤◌, length};
ghost use Rattle.dfu_slots.specs.Layout.{slot_size};
ghost use Rattle.dfu_slots.specs.Image.{IsSizedMedium};
ghost use Rattle.dfu_boot.specs.trial.Marks.{AreTries};
ghost use Rattle.dfu_boot.specs.trial.Calls.{IsStanding};
ghost use Rattle.dfu_boot_c.specs.trial.TrialRecords.{image_in, standing_told, starting_told, TrialOpInAsk};

use dfu_boot::trial::{Operation, Standing, Starting};
use dfu_core::{ASKS, DfuAsk, DfuPlace, ERASE, PROGRAM};
use dfu_slots::{Medium, data_at, header_of, length_in};

/// Standing of the images of a flash: `struct dfu_standing`.
#[repr(C)]
#[derive(Drop)]
pub struct DfuStanding {
    /// Active image, which is the image on trial if there is one.
    pub active: DfuPlace,
    /// Confirmed image, which becomes active again if the image on trial is not confirmed. Equal to `active` if no image is on trial.
    pub base: DfuPlace,
    /// 1 if the active image is on trial, else 0.
    pub on_trial: u32,
    /// Number of tries left for the image on trial; 0 if none is on trial.
    pub left: u32,
    /// 1 if the active image is confirmed, else 0.
    pub is_confirmed: u32,
}

/// Returns the offset of the image in the slot at `slot`, and its length by the slot's header.
pub(crate) fn image_in<M: Medium>(medium: &M, slot: u32) -> DfuPlace
    requires sized { IsSizedMedium (M.state medium.now) }
    requires within { slot + slot_size (M.state medium.now).bytes ≤ length (M.state medium.now).bytes }
    ensures { result ≡ image_in (M.state medium.now) slot }
{
    DfuPlace {
        at: data_at(medium, slot),
        length: length_in(&header_of(medium, slot)),
    }
}

/// Returns the record of the standing of `medium`'s images.
pub(crate) fn standing_told<M: Medium>(medium: &M, tries: u32, standing: Standing) -> DfuStanding
    requires tries { AreTries (M.state medium.now).grain tries }
    requires stands { IsStanding (M.state medium.now) tries standing }
    ensures { result ≡ standing_told (M.state medium.now) tries standing }
{
    match standing {
        Standing::Settled(settled) => {
            let place = image_in(medium, settled.slot);
            DfuStanding {
                active: place,
                base: place,
                on_trial: 0,
                left: 0,
                is_confirmed: if settled.is_confirmed { 1 } else { 0 },
            }
        }
        Standing::OnTrial(trial) => DfuStanding {
            active: image_in(medium, trial.slot),
            base: image_in(medium, trial.base),
            on_trial: 1,
            left: tries - trial.starts,
            is_confirmed: 0,
        },
    }
}

/// Images that may run at a start, once the operation of the start was carried out or failed: `struct dfu_starting`.
#[repr(C)]
#[derive(Drop)]
pub struct DfuStarting {
    /// Image that runs, unless the operation is a mark that does not read as set.
    pub run: DfuPlace,
    /// Image that runs if the operation is a mark that does not read as set.
    pub otherwise: DfuPlace,
}

/// Returns the record of `starting`: the image to run, and the image to run instead if the mark does not read as set.
pub(crate) fn starting_told<M: Medium>(medium: &M, starting: Starting) -> DfuStarting
    requires sized { IsSizedMedium (M.state medium.now) }
    requires run { starting.slot + slot_size (M.state medium.now).bytes ≤ length (M.state medium.now).bytes }
    requires otherwise { starting.otherwise + slot_size (M.state medium.now).bytes ≤ length (M.state medium.now).bytes }
    ensures { result ≡ starting_told (M.state medium.now) starting }
{
    DfuStarting {
        run: image_in(medium, starting.slot),
        otherwise: image_in(medium, starting.otherwise),
    }
}

/// Writes `operation` into `ask`, and returns -11. Without an operation, writes nothing and returns 0.
pub(crate) fn write_ask(operation: Option<Operation>, sector: u32, ask: &mut DfuAsk) -> i32
    ensures { TrialOpInAsk sector operation result ask.old ask.new }
{
    match operation {
        None => 0,
        Some(Operation::Mark(at, len)) => {
            *ask = DfuAsk {
                kind: PROGRAM,
                at,
                length: len,
                bytes: [0; 256],
            };
            ASKS
        }
        Some(Operation::Close(at)) => {
            ask.kind = ERASE;
            ask.at = at;
            ask.length = sector;
            ASKS
        }
    }
}
