//! Laws of sessions. Each law is the proved contract of a function with an empty body, which needn't be called.

ghost use Rattle.dfu_host.specs.Aborting.{AbortIsFinal, AbortSpendsNoAction};
ghost use Rattle.dfu_host.specs.BlockLaws.{BlockCutUnique};
ghost use Rattle.dfu_host.specs.Budget.{FinishesInTime, FinishedHostIsStable};
ghost use Rattle.dfu_host.specs.Counting.{KeptBytesStayCounted};
ghost use Rattle.dfu_host.specs.Installing.{InstalledOnlyIfConfirmed, VerifiedOnlyIfMatched};
ghost use Rattle.dfu_host.specs.Departure.{CompareFollowsClose, NothingConfirmsAfterClose, LeavingBeforeCloseIsRestart};
ghost use Rattle.dfu_host.specs.Rooms.{NoMemoryExactlyOnOverflow};
ghost use Rattle.dfu_host.specs.Verifying.{VerifyEndsWithVerifyReport};
ghost use Rattle.dfu_host.specs.WireLaws.{ResultHasOneMeaning, StateUnderstood, StatusUnderstood};

/// A payload is cut into blocks in only one way. Joined, the blocks are the payload. Each has the transfer size, except the last, which has
/// 1 byte or more.
pub fn one_cut()
    ensures { BlockCutUnique }
{}

/// For any results, a host is done after as many calls of `take` as it has actions, or after one if it has none. After that, a call changes
/// nothing. An abort spends no action; unless the session was done, the next `take` ends it with the report Aborted.
pub fn sessions_end()
    ensures in_time { FinishesInTime }
    ensures stays { FinishedHostIsStable }
    ensures aborted { AbortIsFinal }
    ensures spends { AbortSpendsNoAction }
{}

/// A host reads from a device's bytes the status or state that the device encoded in them. A result has only one meaning, except a part of
/// an upload, for which there may be no memory.
pub fn understood_as_meant()
    ensures status { StatusUnderstood }
    ensures state { StateUnderstood }
    ensures one { ResultHasOneMeaning }
{}

/// Only one row of the table leads to Installed: a tolerant device reports dfuIDLE with OK after the close. Only one row leads to Verified:
/// the device returns the last part of the payload, which is the shorter last block, or no byte after a full last block. After any results,
/// a session that verifies has the same payload; it can't end with Installed, Unconfirmed, Uploaded or NoMemory.
pub fn reports_once_known()
    ensures installed { InstalledOnlyIfConfirmed }
    ensures verified { VerifiedOnlyIfMatched }
    ensures own { VerifyEndsWithVerifyReport }
{}

/// A device that leaves by itself after the close counts as reset for the last time: a download is over as Unconfirmed, and a verified
/// download begins its comparison, with the restarts that it had. In every other phase, the device counts as restarted.
pub fn left_is_the_last_reset()
    ensures ends { NothingConfirmsAfterClose }
    ensures compares { CompareFollowsClose }
    ensures elsewhere { LeavingBeforeCloseIsRestart }
{}

/// An upload that fetches part k has kept k full parts. An upload that ends as Uploaded keeps fewer bytes than 65,535 full parts have. No
/// other session keeps bytes or ends as Uploaded. If the caller keeps the parts in a room, the upload ends with NoMemory exactly if a part
/// that must be kept, together with the bytes kept before it, has more bytes than the room.
pub fn upload_counts_its_parts()
    ensures counted { KeptBytesStayCounted }
    ensures full { NoMemoryExactlyOnOverflow }
{}
