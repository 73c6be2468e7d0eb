//! Computes the CRC register of an image, with the small or large tables that the medium selects.
ghost use Rattle.std.specs.Prelude.{◌≡◌, ℕ, ◌+◌, ◌≤◌, List, ◌++◌, length, take};
ghost use Rattle.dfu_suffix.specs.Register.{register};
ghost use Rattle.dfu_slots.specs.Medium.{written};
ghost use Rattle.dfu_slots.specs.Layout.{slot_size};
ghost use Rattle.dfu_slots.specs.Image.{IsSizedMedium, slot_of, capacity_of};

use crate::Medium;
use crate::read::read_data;
use dfu_suffix::Crc;

// Number of bytes that are read at a time.
const REGISTER_BYTES: u32 = 64;

// Adds `piece` to the CRC register, with the small or large tables that the medium selects.
fn take_piece<M: Medium>(medium: &M, crc: &mut Crc, piece: &[u8])
    ensures { (before : List ℕ) → crc.old ≡ register before → crc.new ≡ register (before ++ piece.now) }
{
    if medium.has_small_tables() {
        crc.update_small(piece);
    } else {
        crc.update(piece);
    }
}

// Returns the CRC register over the first `len` data bytes of the slot that begins at `slot_at`. The caller can add more bytes to it.
fn crc_of<M: Medium>(medium: &M, slot_at: u32, len: u32) -> Crc
    requires sized { IsSizedMedium (M.state medium.now) }
    requires slot { slot_at + slot_size (M.state medium.now).bytes ≤ length (M.state medium.now).bytes }
    requires within { len ≤ capacity_of (M.state medium.now) }
    ensures { result ≡ register (take len (slot_of (M.state medium.now) slot_at).data_bytes) }
{
    let mut crc = Crc::new();
    let mut buffer = [0; REGISTER_BYTES as usize];
    let mut at = 0;
    while at < len {
        let size = REGISTER_BYTES.min(len - at);
        let piece = &mut buffer[..size as usize];
        read_data(medium, slot_at, at, piece);
        take_piece(medium, &mut crc, piece);
        at += size;
    }
    crc
}

/// Returns the CRC register over the first `len` data bytes of the slot that begins at `slot_at`.
pub(crate) fn register_of<M: Medium>(medium: &M, slot_at: u32, len: u32) -> u32
    requires sized { IsSizedMedium (M.state medium.now) }
    requires slot { slot_at + slot_size (M.state medium.now).bytes ≤ length (M.state medium.now).bytes }
    requires within { len ≤ capacity_of (M.state medium.now) }
    ensures { result ≡ register (take len (slot_of (M.state medium.now) slot_at).data_bytes) }
{
    crc_of(medium, slot_at, len).value()
}

/// Returns the CRC register over the first `len` bytes put into the slot that begins at `slot_at`. The slot's data holds the bytes before
/// offset `at`, and `held` the others.
pub(crate) fn register_of_put<M: Medium>(
    medium: &M,
    slot_at: u32,
    at: u32,
    held: &[u8],
    len: u32,
) -> u32
    requires sized { IsSizedMedium (M.state medium.now) }
    requires slot { slot_at + slot_size (M.state medium.now).bytes ≤ length (M.state medium.now).bytes }
    requires within { at + length held.now ≤ capacity_of (M.state medium.now) }
    requires front { len ≤ at + length held.now }
    ensures { result ≡ register (take len (written (slot_of (M.state medium.now) slot_at).data_bytes at held.now)) }
{
    let front = at.min(len);
    let mut crc = crc_of(medium, slot_at, front);
    take_piece(medium, &mut crc, &held[..(len - front) as usize]);
    crc.value()
}

/// Returns the CRC register over `image`, computed with the small or large tables that `medium` selects.
pub(crate) fn register_of_image<M: Medium>(medium: &M, image: &[u8]) -> u32
    ensures { result ≡ register image.now }
{
    let mut crc = Crc::new();
    take_piece(medium, &mut crc, image);
    crc.value()
}
