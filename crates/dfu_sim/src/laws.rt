//! Laws of plays, which are events with their effects on a link. Each law is the contract of a function with no effect, which programs need
//! not call.

ghost use Rattle.dfu_sim.specs.Headline.{HeadlineAtStart};
ghost use Rattle.dfu_sim.specs.LinkAgreement.{SomeMachineAgrees, FreshMachineAgrees, LinkAgreesOn, SessionsContinue};
ghost use Rattle.dfu_sim.specs.CleanRun.{CleanRun};
ghost use Rattle.dfu_sim.specs.CleanSteps.{StepsInstallCleanly, CleanStepsSucceed};
ghost use Rattle.dfu_sim.specs.UploadResults.{UploadsAreActive, RestIsSteady};
ghost use Rattle.dfu_sim.specs.Simulation.{ActiveImageWasOffered, Simulation};
ghost use Rattle.dfu_sim.specs.Accepting.{LinkImagesAccepted, OfferedImagesAccepted};
ghost use Rattle.dfu_sim.specs.OneAnswer.{EventHasOneMeaning, EventHasOneRefusal, RefusedEventIsNoPlay, HarmedActionHasOneResult};
ghost use Rattle.dfu_sim.specs.Understood.{BenchImageIsActive, PlaysMatchLinks, ResponsesUnderstood, PowerOnSucceeds};

use dfu_slots::laws::active_image_is_one;

/// If blocks have at least one byte and the phase fact holds, each play of an event is one legal step of every session machine with which
/// the link agrees. Agreement and the phase fact hold after the play. Installed and Verified are reported only if the device is in appIDLE
/// and exactly the session's payload is active.
pub fn simulation()
    ensures { Simulation }
{}

/// A clean run. The device is tolerant, downloads in blocks of at least one byte, and is in appIDLE with no session. The payload of the
/// offer has at least one byte, at least the device's least length, and at most its capacity, and the limits allow the number of actions
/// that a clean run takes. If the payload is to be verified, the device uploads too, and the payload has fewer than 65,535 full blocks.
/// Then, if nothing is lost and nothing fails, the last of these actions reports Installed or Verified, with the payload active and the
/// device in appIDLE, and no earlier action reports anything.
pub fn clean_run()
    ensures { CleanRun }
{}

/// A clean run, step by step, with or without memory for uploads. The steps are an offer and at most the passes of a clean run, and for
/// each step the clause `sure` of `World::step` holds. Their reports are those of a clean run, and no step is refused.
pub fn clean_steps()
    ensures install { StepsInstallCleanly }
    ensures stand { CleanStepsSucceed }
{}

/// After a legal run the active image is the one before the run, or the whole payload of a file offered so far.
pub fn only_offered()
    ensures { ActiveImageWasOffered }
{}

/// Assume that the device's program enforces a check: it refuses each image that the check rejects, before an action of the host or passing
/// time could put that image in place. Then after any events of a `World` the active image is the one before them, or one that the check
/// accepts. With the headline it is the factory image, or the whole payload of an offer that the check accepts. For a program without a
/// check, take the check that accepts every image.
pub fn worlds_take_what_is_accepted()
    ensures image { LinkImagesAccepted }
    ensures offered { OfferedImagesAccepted }
{
    active_image_is_one();
}

/// For each link, some session machine agrees with it. If no session is live and no closed download waits to be put in place, a machine
/// with no offers agrees. If the bench shows the active image of the medium's bytes, each machine that agrees with its link agrees with the
/// bench too.
pub fn machine_agrees()
    ensures machine_exists { SomeMachineAgrees }
    ensures fresh { FreshMachineAgrees }
    ensures over_device { LinkAgreesOn }
{}

/// If a world with no session is replaced by a new world over its device, each session machine that agreed with the old one agrees with the
/// new one, with nothing uploaded so far.
pub fn sessions_go_on()
    ensures { SessionsContinue }
{}

/// The host reads each answer of the device with the meaning that the device gave it. If there is no memory for a part of an upload, the
/// host receives NoRoom instead.
pub fn understood()
    ensures { ResponsesUnderstood }
{}

/// A play in bytes, over a device on a medium, is a play of the values that the device shows.
pub fn bytes_show()
    ensures { PlaysMatchLinks }
{}

/// Each event has one meaning: it is refused with one fault and may not be played, or it corresponds to one event of the table of fates. If
/// no write is harmed, the clause `sure` of `World::step` determines the result of a play. If a write is harmed, the clause `result` of
/// this law determines it: the device is determined except for its count of failed writes, and the session and the answer depend only on
/// whether there was memory for a part of an upload.
pub fn one_answer()
    ensures fault { EventHasOneRefusal }
    ensures no_play { RefusedEventIsNoPlay }
    ensures event { EventHasOneMeaning }
    ensures result { HarmedActionHasOneResult }
{}

/// In each sequence of events on a link that began with a device at rest, the bytes of a session that reports Uploaded are those of the
/// active image.
pub fn uploads_give_the_image()
    ensures gives { UploadsAreActive }
    ensures rest { RestIsSteady }
{}

/// If the medium's bytes have an active image, the bench of the link has that image and no other.
pub fn image_shown()
    ensures { BenchImageIsActive }
{
    active_image_is_one();
}

/// Power-on succeeds: `Device::power_on` is not refused on the medium of a bench that shows the active image of the medium's bytes. The
/// bench of a `World` always shows that image.
pub fn power_comes_back()
    ensures { PowerOnSucceeds }
{
    active_image_is_one();
}

/// The headline holds for a device with no session and no image that waits to be put in place. Its factory image is the image that is
/// active at that time.
pub fn headline_at_rest()
    ensures { HeadlineAtStart }
{}
