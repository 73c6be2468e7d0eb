//! Addresses of virtual bytes on a part.
ghost use Rattle.std.specs.Prelude.{◌≡◌, ◌^◌, ◌<◌, ◌≤◌, ◌+◌, ◌*◌};
ghost use Rattle.dfu_places.specs.Placement.{IsPlaced, IsSectorSize};
ghost use Rattle.dfu_places.specs.Finding.{slot_len, virtual_len, spot_in, spot_of, found, erased};

use crate::placement::{bytes_at, span_at};
use crate::{Placement, Span};

/// Spot of a virtual byte: the rank of its gate, header or data, and the byte's offset there.
#[derive(Clone, Copy, Drop)]
pub(crate) struct Spot {
    pub rank: u32,
    pub offset: u32,
}

// Returns the number of virtual bytes of a slot.
fn slot_len(placement: &Placement) -> u32
    requires { IsPlaced placement.now }
    ensures value { result ≡ slot_len placement.now }
    ensures in_25_bits { result < 2 ^ 25 }
{
    2 * placement.sector + placement.first.data.len
}

/// Returns the number of bytes of the virtual flash. It equals DFU_MEDIUM_SIZE for the unit, the virtual sector and the data bytes.
pub fn virtual_len(placement: &Placement) -> u32
    requires { IsPlaced placement.now }
    ensures { result ≡ virtual_len placement.now }
{
    2 * slot_len(placement)
}

// Returns the spot of byte `at` of a slot, whose gate has the rank `first`.
fn spot_in(sector: u32, first: u32, at: u32) -> Spot
    requires sector { sector ≤ 2 ^ 18 }
    requires first { first ≤ 3 }
    ensures rank { result.rank ≡ (spot_in sector first at).rank }
    ensures offset { result.offset ≡ (spot_in sector first at).offset }
{
    if at < sector {
        Spot {
            rank: first,
            offset: at,
        }
    } else if at < 2 * sector {
        Spot {
            rank: first + 1,
            offset: at - sector,
        }
    } else {
        Spot {
            rank: first + 2,
            offset: at - 2 * sector,
        }
    }
}

fn spot_of(placement: &Placement, at: u32) -> Spot
    requires { IsPlaced placement.now }
    ensures rank { result.rank ≡ (spot_of placement.now at).rank }
    ensures offset { result.offset ≡ (spot_of placement.now at).offset }
    ensures rank_at_most_5 { result.rank ≤ 5 }
{
    let slot = slot_len(placement);
    if at < slot {
        spot_in(placement.sector, 0, at)
    } else {
        spot_in(placement.sector, 3, at - slot)
    }
}

#[tactic(auto, using(crate::proofs::Places::slot_thing_ends_below_bound, crate::proofs::Places::virtual_bytes_fit_thing))]
/// Returns the address of the `len` virtual bytes from `at` on. None means that they do not all lie in the same gate, header or data, or
/// that not all are on the part.
pub fn find(placement: &Placement, at: u32, len: u32) -> Option<u32>
    requires { IsPlaced placement.now }
    ensures { result ≡ found placement.now at len }
{
    let Spot { rank, offset } = spot_of(placement, at);
    if (bytes_at(placement, rank) as u64) < offset as u64 + len as u64 {
        None
    } else {
        Some(span_at(placement, rank).at + offset)
    }
}

#[tactic(auto, using(crate::proofs::Places::slot_thing_ends_below_bound, crate::proofs::Places::virtual_bytes_fit_thing))]
/// Returns the sectors of the part that are erased for the virtual sector that begins at `at`: a whole gate or header, or one virtual
/// sector of data. None means that no virtual sector begins there.
pub fn erased(placement: &Placement, at: u32) -> Option<Span>
    requires { IsPlaced placement.now }
    ensures { result ≡ erased placement.now at }
{
    let Spot { rank, offset } = spot_of(placement, at);
    let span = span_at(placement, rank);
    if rank == 2 || rank == 5 {
        if offset % placement.sector == 0 && offset < span.len {
            Some(Span {
                at: span.at + offset,
                len: placement.sector,
            })
        } else {
            None
        }
    } else if offset == 0 {
        Some(span)
    } else {
        None
    }
}
