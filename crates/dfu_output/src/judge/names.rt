//! Names in the lines of `dfu judge`.

ghost use Rattle.std.specs.Prelude.{◌≡◌};
ghost use Rattle.dfu_output.specs.judge.Names.{answer_name, event_kind_name, place_name, reading_name, source_name, when_name};

use dfu_conformance::{EventKind, Gives, Reading, RuleSource, StandardState, When};

/// States of the standard, in the order of their numbers.
pub(crate) static STATES: [StandardState; 11] = [
    StandardState::AppIdle,
    StandardState::AppDetach,
    StandardState::DfuIdle,
    StandardState::DownloadSync,
    StandardState::DownloadBusy,
    StandardState::DownloadIdle,
    StandardState::ManifestSync,
    StandardState::Manifest,
    StandardState::ManifestWaitReset,
    StandardState::UploadIdle,
    StandardState::Error,
];

/// Habits, in the order of their numbers.
pub(crate) static READINGS: [Reading; 6] = [
    Reading::Bootloader,
    Reading::RuntimeMute,
    Reading::SelfReset,
    Reading::DetachAtOnce,
    Reading::DetachLeaves,
    Reading::ErrorWithoutCode,
];

/// Returns the name that the standard gives to the state `place`.
pub(crate) fn place_name(place: StandardState) -> &'static str
    ensures { result.now ≡ place_name place }
{
    named!(place, StandardState,
        AppIdle "appIDLE", AppDetach "appDETACH", DfuIdle "dfuIDLE", DownloadSync "dfuDNLOAD-SYNC",
        DownloadBusy "dfuDNBUSY", DownloadIdle "dfuDNLOAD-IDLE", ManifestSync "dfuMANIFEST-SYNC",
        Manifest "dfuMANIFEST", ManifestWaitReset "dfuMANIFEST-WAIT-RESET", UploadIdle "dfuUPLOAD-IDLE",
        Error "dfuERROR", Fresh "dfuIDLE"
    )
}

/// Returns the name of an event's kind: a request, `reset` or `power`.
pub(crate) fn event_kind_name(asked: EventKind) -> &'static str
    ensures { result.now ≡ event_kind_name asked }
{
    named!(asked, EventKind,
        Detach "DETACH", Block "DNLOAD", Close "DNLOAD-0", Upload "UPLOAD", GetStatus "GETSTATUS",
        ClrStatus "CLRSTATUS", GetState "GETSTATE", Abort "ABORT", Other "other", Reset "reset",
        Power "power"
    )
}

/// Returns the name of an answer that a row allows.
pub(crate) fn answer_name(gives: Gives) -> &'static str
    ensures { result.now ≡ answer_name gives }
{
    named!(gives, Gives,
        Ack "ack", Stall "stall", Status "status", NoCode "status-OK", State "state", Full "full",
        Short "short", Silent "nothing"
    )
}

/// Returns the name of the source of a row: appendix A, a reading of an open question (`open`), or a habit.
pub(crate) fn source_name(source: RuleSource) -> &'static str
    ensures { result.now ≡ source_name source }
{
    named!(source, RuleSource, A "appendix-A", Open "open", Habit "habit")
}

/// Returns the name of the habit `reading`.
pub(crate) fn reading_name(reading: Reading) -> &'static str
    ensures { result.now ≡ reading_name reading }
{
    named!(reading, Reading,
        Bootloader "bootloader", RuntimeMute "runtime-mute", SelfReset "self-reset",
        DetachAtOnce "detach-at-once", DetachLeaves "detach-leaves",
        ErrorWithoutCode "error-without-code"
    )
}

/// Returns the name of the devices to which a row applies, with a space before it; empty if it applies to every device.
pub(crate) fn when_name(when: When) -> &'static str
    ensures { result.now ≡ when_name when }
{
    match when {
        When::Always => "",
        When::CanDownload => " download",
        When::CanUpload => " upload",
        When::Tolerant => " tolerant",
        When::NotTolerant => " not-tolerant",
        When::WillDetach => " will-detach",
        When::By(_) => " habit",
    }
}
