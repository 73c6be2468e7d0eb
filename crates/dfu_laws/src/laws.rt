//! Laws of a board through any steps, alone or over a link with a host, with calls in Rattle or in C; and the law of a device's answers.
//! Each law is the contract of a function whose body is empty or only calls other laws. The contracts are proved, and a call of such a
//! function has no effect.

ghost use Rattle.std.specs.Prelude.{ℕ};
ghost use Rattle.dfu_slots.specs.Medium.{MediumState};
ghost use Rattle.dfu_boot.specs.trial.Lists.{Ends, TrialStepResult};
ghost use Rattle.dfu_laws.specs.board.ImageSurvival.{RunsKeepImage, ImageStaysInRun, ManifestationInstalls};
ghost use Rattle.dfu_laws.specs.board.Counts.{RunOperationsBounded};
ghost use Rattle.dfu_laws.specs.board.Accepts.{RunKeepsAcceptedImage, HistoryKeepsAcceptedImage};
ghost use Rattle.dfu_laws.specs.board.Refines.{RunsRefineDeviceTable, IdleRunsRefineTable};
ghost use Rattle.dfu_laws.specs.board.Slots.{IdleRunsKeepSlots};
ghost use Rattle.dfu_laws.specs.link.Plays.{UploadIsActiveImage, ReportMeansPayloadInPlace, ActiveImageIsKnown, ActiveImageIsKnownWithin, PlaysAreRuns};
ghost use Rattle.dfu_laws.specs.link.Stays.{ReportedTrialStays};
ghost use Rattle.dfu_laws.specs.link.Marks.{OpenGateWasClosed};
ghost use Rattle.dfu_laws.specs.link.Copies.{HomeOperationsKeepImage};
ghost use Rattle.dfu_laws.specs.judge.Conformity.{HistoriesConform, DevicesFromStartConform};
ghost use Rattle.dfu_laws.specs.in_c.Closes.{ClosesIfRefused};
ghost use Rattle.dfu_laws.specs.in_c.Runs.{CoreRunsRefineTable, CoreRunsKeepImage, CoreImageStaysInRun, CoreManifestationInstalls, CorePowerOnSucceeds};
ghost use Rattle.dfu_laws.specs.in_c.FormatCalls.{EndedFormatActivatesImage, BrokenFormatCanRestart};
ghost use Rattle.dfu_laws.specs.in_c.FormatCounts.{FormatOperationsBounded};
ghost use Rattle.dfu_laws.specs.in_c.Plays.{CoreReportMeansInPlace, CoreActiveImageIsKnown, CoreActiveImageKnownWithin, CoreUploadIsActiveImage, CorePlaysAreRuns, CorePlaysContinue};
ghost use Rattle.dfu_laws.specs.in_c.Counts.{CoreOperationsBounded};
ghost use Rattle.dfu_laws.specs.in_c.Stays.{CoreReportedTrialStays};

use dfu_asks::laws::{pieces_are_the_writes, steps_are_the_writes, writes_are_the_calls};
use dfu_boot::trial::laws::what_was_confirmed_runs_or_the_newest_on_trial;
use dfu_device::laws::rows_take;
use dfu_home::laws::{first_slot_is_known, image_stays, writes_the_first_slot};
use dfu_sim::laws::{only_offered, simulation};
use dfu_slots::laws::active_image_is_one;

// Laws of a board that follow from the rows of its steps in the device table.
fn boards_make_rows()
    ensures power { RunsRefineDeviceTable }
    ensures idle { IdleRunsRefineTable }
    ensures slots { IdleRunsKeepSlots }
    ensures keeps { RunsKeepImage }
    ensures stays { ImageStaysInRun }
    ensures installs { ManifestationInstalls }
{
    pieces_are_the_writes();
    steps_are_the_writes();
    writes_are_the_calls();
    rows_take();
    active_image_is_one();
}

/// The steps of a board after power on are a history of the device table. Each answer ends one row. If the power fails while the writes of
/// a row are pending, the history contains that row, ended by a write that failed, and then the row of the power on.
///
/// The board is in the state of the device to which the rows lead. Its flash has that device's active image, or while writes are pending in
/// manifestation the bytes of the download. This also holds from any later time at which no writes are pending. From such a time on, each
/// image in one of the two slots was in a slot at that time, or was active after one of the steps.
pub fn boards_are_devices()
    ensures power { RunsRefineDeviceTable }
    ensures idle { IdleRunsRefineTable }
    ensures slots { IdleRunsKeepSlots }
{
    boards_make_rows();
}

/// After any steps of a board since power on, its flash has an active image: the image that was active at power on, or all bytes of a
/// download that was closed since. This also holds from any later time at which the state is neither dfuMANIFEST-SYNC nor dfuMANIFEST, for
/// the image that is active at that time and the downloads closed after it. If a step leads from one of these two states to dfuIDLE or
/// dfuMANIFEST-WAIT-RESET, and it is not a restart, all bytes of the download are the active image.
pub fn boards_keep_an_image()
    ensures keeps { RunsKeepImage }
    ensures stays { ImageStaysInRun }
    ensures installs { ManifestationInstalls }
{
    boards_make_rows();
}

/// Law of a board whose program checks each image. A program without a check accepts every image.
///
/// If the program refuses every close of bytes that fail the check, the active image is the one at power on, or all bytes of a download
/// that was closed since and that pass the check.
///
/// In a history of the device table, if each pending image that fails the check is refused in time or given up, the active image is the
/// first one, or one that passes the check.
pub fn boards_take_what_is_accepted()
    ensures at_close { RunKeepsAcceptedImage }
    ensures in_time { HistoryKeepsAcceptedImage }
{
    boards_keep_an_image();
}

/// Law of a board that has no pending writes, up to its next answer. It requests at most `DFU_BLOCK_ERASES` plus `DFU_BLOCK_PROGRAMS`
/// writes for a block, and at most `DFU_COMMIT_ERASES` plus `DFU_COMMIT_PROGRAMS` for the commit of an image. Therefore the loop that
/// carries out the writes ends.
pub fn boards_ask_few_times()
    ensures { RunOperationsBounded }
{
    boards_are_devices();
    steps_are_the_writes();
}

/// Law of any sequence of events between a board and a host over a link, after the board's power on.
///
/// If the host reports Installed or Verified, the payload of its session is the active image of the board's flash, and the board is in
/// appIDLE. The bytes of the report Uploaded are the active image. At every step, even between two writes of a call, the active image is
/// the image that was active at first, or a payload that was offered so far. After the end of a trial it may also be the other image that
/// was in a slot at first. The steps of the board are runs, and therefore the laws above hold for them.
///
/// The events may include marks of a trial, ends of trials, and copies between two areas. If the payload is on trial, each start runs it
/// until its tries are spent; a start whose mark fails runs the confirmed image, and once the tries are spent every start does. With two
/// areas, the copy to the first slot runs between a restart and the start of the device, and any of its operations may fail, be cut off, or
/// report a wrong result.
pub fn boards_install()
    ensures in_place { ReportMeansPayloadInPlace }
    ensures stays { ReportedTrialStays }
    ensures known { ActiveImageIsKnown }
    ensures known_within { ActiveImageIsKnownWithin }
    ensures gives { UploadIsActiveImage }
    ensures run { PlaysAreRuns }
{
    boards_are_devices();
    simulation();
    only_offered();
    active_image_is_one();
    what_was_confirmed_runs_or_the_newest_on_trial();
    image_stays();
    writes_the_first_slot();
    first_slot_is_known();
}

/// Any number of operations of the copy between two areas leave the same image active. Each operation is one that `next` of dfu_home
/// returns for some progress. It may fail, be cut off by a loss of power, or report a wrong result.
pub fn copies_change_no_image()
    ensures { HomeOperationsKeepImage }
{
    image_stays();
}

/// The end of a trial by dfu_boot changes only the sector of one gate, which was open, for any outcome of the erase. The laws here describe
/// the end of a trial by `OpenGateWasClosed`.
pub fn ends_of_trials_close_a_gate()
    ensures { (m now : MediumState) (tries : ℕ) → TrialStepResult tries m Ends now → OpenGateWasClosed m now.bytes }
{}

/// For every history of a device, the events that a judge observes are a run of the standard's table, from the device's first state to its
/// last. The run uses no habit, that is, no tolerated departure from the standard. Therefore a judge reports no departure of the device.
/// The law is the contract of a function with an empty body, which no program needs to call.
pub fn answers_are_kept()
    ensures history { HistoriesConform }
    ensures start { DevicesFromStartConform }
{}

/// The steps of a board in C from power on are a run of a board, event by event, and therefore rows of the device table. The numbers that
/// the calls return give the answers of these rows.
pub fn core_boards_are_devices()
    ensures { CoreRunsRefineTable }
{
    boards_are_devices();
}

/// After any steps of a board in C from power on, its flash has an active image: the one at power on, or all bytes of a download that was
/// closed since. This also holds from any later time at which the state is neither dfuMANIFEST-SYNC nor dfuMANIFEST. If a step leads from
/// one of these two states to dfuIDLE or dfuMANIFEST-WAIT-RESET, and it is not a restart, all bytes of the download are the active image.
/// Therefore dfu_core_power_on is never refused.
pub fn core_boards_keep_an_image()
    ensures keeps { CoreRunsKeepImage }
    ensures stays { CoreImageStaysInRun }
    ensures installs { CoreManifestationInstalls }
    ensures starts { CorePowerOnSucceeds }
{
    boards_keep_an_image();
}

/// Law of a board in C that has no pending writes, up to its next answer. While a block is written, DFU_WRITE_PENDING is returned at most
/// `DFU_BLOCK_ERASES` plus `DFU_BLOCK_PROGRAMS` times. While an image is put in place, it is returned at most `DFU_COMMIT_ERASES` plus
/// `DFU_COMMIT_PROGRAMS` times. The bounds are those of the configured transfer size and sector size. Therefore a loop that runs while the
/// number is DFU_WRITE_PENDING ends, after at most these sums of operations.
pub fn core_boards_ask_few_times()
    ensures { CoreOperationsBounded }
{
    boards_ask_few_times();
}

/// Law of any sequence of events between a board in C and a host over a link, after the board's power on.
///
/// If the host reports Installed or Verified, the payload of its session is the active image of the flash, and dfu_core_state returns
/// appIDLE. The bytes of the report Uploaded are the active image. At every step, even between two writes of a call, the active image is
/// the image that was active at first, or a payload that was offered so far. After the end of a trial it may also be the other image that
/// was in a slot at first. The steps of the board are runs, and therefore the laws above hold for them.
///
/// The events may include marks of a trial, ends of trials, and copies between two areas. If the payload is on trial, the clause `stays`
/// states which image runs.
pub fn core_boards_install()
    ensures in_place { CoreReportMeansInPlace }
    ensures stays { CoreReportedTrialStays }
    ensures known { CoreActiveImageIsKnown }
    ensures known_within { CoreActiveImageKnownWithin }
    ensures gives { CoreUploadIsActiveImage }
    ensures run { CorePlaysAreRuns }
    ensures goes_on { CorePlaysContinue }
{
    boards_install();
    what_was_confirmed_runs_or_the_newest_on_trial();
}

/// Law of a format, with any results of its writes. Once dfu_core_format_took returns 0, the image is the active image of the flash, and
/// dfu_core_power_on is not refused. A format that a loss of power or a failed write broke off may leave a flash without an active image. A
/// new format can begin on that flash as on any other.
pub fn core_formats_make_an_image()
    ensures formatted { EndedFormatActivatesImage }
    ensures anew { BrokenFormatCanRestart }
{}

/// Law of a format, with any results of its writes. Its calls return DFU_WRITE_PENDING at most `DFU_FORMAT_ERASES` plus
/// `DFU_FORMAT_PROGRAMS` times, for the image's length and the sector size. Therefore the loop that carries out a format ends.
pub fn core_formats_ask_few_times()
    ensures { FormatOperationsBounded }
{}

/// If dfu_core_closes returns 1 for a setup, dfu_core_refuse_close returns DFU_STALL for it, and if dfu_core_closes returns 0,
/// dfu_core_refuse_close returns DFU_NO_CLOSE. Therefore a program that checks the image whenever dfu_core_closes returns 1 can refuse each
/// image before it is put in place.
pub fn core_closes_if_refused()
    ensures { ClosesIfRefused }
{}
