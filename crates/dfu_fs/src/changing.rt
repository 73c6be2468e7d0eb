//! Change of the identifiers of a DFU file.

ghost use Rattle.std.specs.Prelude.{◌≡◌, ◌++◌, ◌-◌, IfOk, length, take};
ghost use Rattle.dfu_fs.specs.Changing.{ChangesFile, changed_ids, with_check_sum, suffix_fields};

use dfu_suffix::{Crc, SuffixFault, read};
use dfu_wire::Ids;
use std::alloc::{AllocError, Global};

/// Identifiers to set; None keeps the old one.
#[derive(Clone, Copy)]
pub struct Change {
    /// New idVendor, or None.
    pub vendor: Option<u16>,
    /// New idProduct, or None.
    pub product: Option<u16>,
    /// New bcdDevice, or None.
    pub device: Option<u16>,
}

/// Returns the identifiers after `change`: the new one if `change` contains it, and the one of `ids` otherwise.
fn new_ids(change: &Change, ids: Ids) -> Ids
    ensures { result ≡ changed_ids change.now ids }
{
    Ids {
        device: change.device.unwrap_or(ids.device),
        product: change.product.unwrap_or(ids.product),
        vendor: change.vendor.unwrap_or(ids.vendor),
    }
}

/// Returns the bytes before the last 16, or none if there are at most 16 bytes.
fn front_of(bytes: &[u8]) -> &[u8]
    ensures { result.now ≡ take (length bytes.now - 16) bytes.now }
{
    let (front, _) = bytes.split_at(bytes.len().saturating_sub(16));
    front
}

/// Returns `front`, the fields of a suffix with `ids`, bcdDFU `dfu` and bLength `suffix`, and the CRC of all these bytes.
#[tactic(auto, using(std::proofs::lemmas::List::append_assoc))]
fn rewritten_file(
    alloc: Global,
    front: &[u8],
    ids: Ids,
    dfu: u16,
    suffix: u8,
) -> Result<Vec<u8>, AllocError>
    ensures { IfOk result (λ v. v.items ≡ with_check_sum (front.now ++ suffix_fields ids dfu suffix)) }
{
    let mut text = Vec::with_capacity(alloc, front.len().saturating_add(16))?;
    text.extend_from_slice(front)?;
    text.extend_from_slice(&ids.device.to_le_bytes())?;
    text.extend_from_slice(&ids.product.to_le_bytes())?;
    text.extend_from_slice(&ids.vendor.to_le_bytes())?;
    text.extend_from_slice(&dfu.to_le_bytes())?;
    text.extend_from_slice(&[b'U', b'F', b'D', suffix])?;
    let mut crc = Crc::new();
    crc.update_long(&text);
    text.extend_from_slice(&crc.value().to_le_bytes())?;
    Ok(text)
}

/// Returns the file `bytes` with the identifiers of `change` and a new CRC. The payload, bcdDFU and the extra bytes stay unchanged.
///
/// # Errors
///
/// The first fault of the bytes, as `read` of dfu_suffix returns it; NoMemory if an allocation failed.
pub fn with_ids(alloc: Global, bytes: &[u8], change: &Change) -> Result<Vec<u8>, SuffixFault>
    ensures { ChangesFile change.now bytes.now result }
{
    let file = match read(bytes) {
        Ok(file) => file,
        Err(fault) => return Err(fault),
    };
    let ids = new_ids(change, file.ids());
    match rewritten_file(alloc, front_of(bytes), ids, file.dfu(), file.suffix()) {
        Ok(text) => Ok(text),
        Err(_) => Err(SuffixFault::NoMemory),
    }
}
