//! Law of a host and a board that both run in C. The host's program keeps its session in the record of dfu_host_core, and the board's
//! program keeps its device in the record of dfu_core. The law is the contract of a function that only calls other laws. The contract is
//! proved, and a call of the function has no effect.

ghost use Rattle.dfu_laws.specs.ends.Plays.{SessionsOfEndsHaveHosts, EndsReportMeansInPlace, EndsUploadIsActiveImage, EndsActiveImageIsKnown, EndsActiveImageKnownWithin, EndsContinue};
ghost use Rattle.dfu_laws.specs.ends.Stays.{EndsReportedTrialStays};

use crate::laws::core_boards_install;
use dfu_host_core::laws::core_hosts_are_hosts;

/// Law of any sequence of events between a board in C and a host in C, after the board's power on. Each call works on the record that the
/// previous call left.
///
/// If dfu_host_next reports that a session is over with Installed or Verified, the payload of that session is the active image of the
/// flash, and dfu_core_state returns appIDLE. If dfu_host_next reports Uploaded, the bytes that the session keeps are the active image. At
/// every step, even between two writes of a call, the active image is the image that was active at first, or a payload that was offered so
/// far. After the end of a trial it may also be the other image that was in a slot at first.
///
/// The live session is a session of a host of dfu_host. The events may include marks of a trial, ends of trials, and copies between two
/// areas. If the payload is on trial, the clause `stays` states which image runs.
pub fn core_ends_install()
    ensures in_place { EndsReportMeansInPlace }
    ensures stays { EndsReportedTrialStays }
    ensures known { EndsActiveImageIsKnown }
    ensures known_within { EndsActiveImageKnownWithin }
    ensures gives { EndsUploadIsActiveImage }
    ensures are { SessionsOfEndsHaveHosts }
    ensures goes_on { EndsContinue }
{
    core_boards_install();
    core_hosts_are_hosts();
}
