//! An upload whose caller keeps the bytes in a room of fixed size.

ghost use Rattle.std.specs.Prelude.{◌≡◌, ◌+◌, ◌<◌, ◌≤◌, ◌++◌, nat_lt, IfSome, None, drop, false, length, take, true, List, ℕ};
ghost use Rattle.dfu_host.specs.InParts.{host_of, bytes_kept_for_part};
ghost use Rattle.dfu_host.specs.UploadBuffer.{MemoryAfterSeen};
ghost use Rattle.dfu_host.specs.TakeCall.{TakeResult};
ghost use Rattle.dfu_host.specs.Rooms.{FetchResultIn};
ghost use Rattle.dfu_host.specs.Storing.{PartIsStored, RoomAfterSeen};
ghost use Rattle.dfu_host.specs.inside.Refusing.{RefusesAnswerByRoom};
ghost use Rattle.dfu_host.specs.Goals.{CarriesPayload};
ghost use Rattle.std.specs.Borrow.{Bor};

use crate::part::UploadPart;
use crate::seen::Seen;
use crate::session::Session;

impl Session<'_> {
    /// Passes the result of the session's action to the session, as [`crate::Host::take`] does. Before the call, the first `kept` bytes of
    /// the caller's room are kept. The call returns the number of bytes that are kept after it. A download keeps no bytes and needs no
    /// room.
    ///
    /// A part of an upload is stored in the room after the kept bytes. If the part doesn't fit, nothing is stored, and the session ends
    /// with the report NoMemory.
    pub fn take(&mut self, room: &mut [u8], kept: usize, seen: Seen<'_>) -> usize
        requires { kept ≤ length room.old }
        ensures takes { TakeResult (host_of (take kept room.old) self.old) seen.entry (host_of (take result room.new) self.new) }
        ensures room { FetchResultIn (length room.old) (host_of (take kept room.old) self.old) (host_of (take kept room.old) self.old).phase
            seen.entry (host_of (take result room.new) self.new) }
        ensures payload { (payload : Bor (List ℕ)) → CarriesPayload payload self.old.goal → CarriesPayload payload self.new.goal }
        ensures stores { RoomAfterSeen self.old.transfer self.old.phase seen.entry kept room.old result room.new }
        ensures within { result ≤ length room.new }
        ensures len { length room.new ≡ length room.old }
        ensures beyond { drop result room.new ≡ drop result room.old }
    {
        match keep(self, room, kept, seen) {
            Some(kept) => {
                self.on_result(seen, false);
                kept
            }
            None => {
                self.on_result(seen, true);
                kept
            }
        }
    }
}

/// Stores the part in a session's result, if there is one to keep, and returns the number of bytes that are kept then. None if the room is
/// too small for the part; nothing changes then.
fn keep(session: &Session<'_>, room: &mut [u8], kept: usize, seen: Seen<'_>) -> Option<usize>
    requires { kept ≤ length room.old }
    ensures some { IfSome result (λ n.
        MemoryAfterSeen session.now.transfer session.now.phase seen.entry false (take kept room.old) (take n room.new)) }
    ensures none { result ≡ None → MemoryAfterSeen session.now.transfer session.now.phase seen.entry true (take kept room.old) (take kept room.old) }
    ensures taken { IfSome result (λ n.
        RefusesAnswerByRoom (length room.old) session.now.transfer session.now.phase (take kept room.old) seen.entry false) }
    ensures stored { IfSome result (λ n. RoomAfterSeen session.now.transfer session.now.phase seen.entry kept room.old n room.new) }
    ensures stays { result ≡ None → RoomAfterSeen session.now.transfer session.now.phase seen.entry kept room.old kept room.old }
    ensures refused { result ≡ None
        → RefusesAnswerByRoom (length room.old) session.now.transfer session.now.phase (take kept room.old) seen.entry true }
    ensures len { length room.new ≡ length room.old }
    ensures inside_room { IfSome result (λ n. n ≤ length room.old) }
    ensures beyond { IfSome result (λ n. drop n room.new ≡ drop n room.old) }
    ensures room_unchanged { result ≡ None → room.new ≡ room.old }
{
    match session.part(seen) {
        Some(part) => store(room, kept, &part),
        None => Some(kept),
    }
}

/// Stores a part after the first `kept` bytes, or at the beginning if it is part 0, and returns the number of bytes that are kept then.
/// None if the room is too small for the part; nothing changes then.
#[tactic(auto, using(std::proofs::lemmas::Slice::overwrites))]
fn store(room: &mut [u8], kept: usize, part: &UploadPart<'_>) -> Option<usize>
    requires { kept ≤ length room.old }
    ensures len { length room.new ≡ length room.old }
    ensures inside_room { IfSome result (λ n. n ≤ length room.old) }
    ensures joins { IfSome result (λ n. take n room.new ≡ bytes_kept_for_part part.now.number (take kept room.old) ++ part.now.bytes.now) }
    ensures beyond { IfSome result (λ n. drop n room.new ≡ drop n room.old) }
    ensures stored { IfSome result (λ n. PartIsStored
        (bytes_kept_for_part part.now.number (take kept room.old)) part.now.bytes.now room.old n room.new) }
    ensures part_has_bytes { result ≡ None → 0 < length part.now.bytes.now }
    ensures room_unchanged { result ≡ None → room.new ≡ room.old }
    ensures fitted { IfSome result (λ n.
        false ≡ nat_lt (length room.old) (length (bytes_kept_for_part part.now.number (take kept room.old)) + length part.now.bytes.now)) }
    ensures full { result ≡ None
        → true ≡ nat_lt (length room.old) (length (bytes_kept_for_part part.now.number (take kept room.old)) + length part.now.bytes.now) }
{
    let from = if part.number == 0 { 0 } else { kept };
    if room.len() - from < part.bytes.len() {
        return None;
    }
    let to = from + part.bytes.len();
    room[from..to].copy_from_slice(part.bytes);
    Some(to)
}
