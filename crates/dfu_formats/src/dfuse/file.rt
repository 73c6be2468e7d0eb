//! A DfuSe file.

ghost use Rattle.std.specs.Prelude.{◌≡◌, ◌↔◌, length, Ok, Err, IfOk};
ghost use Rattle.dfu_formats.specs.declared.dfuse.fault.FileFault.{FileFault};
ghost use Rattle.dfu_formats.specs.dfuse.Reading.{DfuseContent, body_at, file_of_targets, file_at};
ghost use Rattle.dfu_formats.specs.dfuse.Grammar.{IsDfuSe, FirstFileFault};
ghost use Rattle.dfu_formats.specs.dfuse.Images.{one_setting};

use crate::dfuse::fault::FileFault;
use crate::dfuse::marks::begins_with_dfuse;
use crate::dfuse::numbers::number_at;
use crate::dfuse::suffix::read_suffix;
use crate::dfuse::targets::{Targets, check_targets};
use dfu_wire::Ids;
use std::marker::Model;

/// A DfuSe file: the identifiers of its device, and one to 255 targets, as slices of the bytes that were read. Only `read` creates one.
#[derive(Drop)]
pub struct File<'f> {
    ids: Ids,
    count: u8,
    targets: &'f [u8],
}

impl<'f> Model for File<'f> {
    ghost use Rattle.std.specs.Prelude.{◌≡◌, Ok};
    ghost use Rattle.dfu_formats.specs.dfuse.Reading.{DfuseContent, targets_at};
    ghost use Rattle.dfu_formats.specs.dfuse.Found.{list_or_empty};

    ghost Value = { DfuseContent };

    ghost view = { λ f. record { ids = f.ids; targets = list_or_empty (targets_at f.count f.targets.now) } };

    ghost invariant = { λ f. targets_at f.count f.targets.now ≡ Ok (list_or_empty (targets_at f.count f.targets.now)) };
}

/// Reads `bytes`, the part of a file before its suffix. The file has `whole` bytes, and its suffix contains `ids`.
///
/// # Errors
///
/// The first fault that is found in `bytes`, from the front.
#[tactic(auto, using(std::proofs::lemmas::Bool::Decides::nat_tests), unfolding(crate::specs::dfuse::Reading::body_at))]
fn read_body(ids: Ids, whole: usize, bytes: &[u8]) -> Result<File<'_>, FileFault>
    ensures { result ≡ file_of_targets ids (body_at whole bytes.now) }
{
    if bytes.len() < 11 {
        return Err(FileFault::NoPrefix);
    }
    if !begins_with_dfuse(bytes) {
        return Err(FileFault::NoPrefix);
    }
    if bytes[5] != 1 {
        return Err(FileFault::BadVersion);
    }
    let size = number_at(6, bytes) as usize;
    if size != bytes.len() && size != whole {
        return Err(FileFault::BadImageSize);
    }
    let count = bytes[10];
    if count == 0 {
        return Err(FileFault::NoTargets);
    }
    let (_, targets) = bytes.split_at(11);
    match check_targets(count, targets) {
        Ok(()) => Ok(File {
            ids,
            count,
            targets,
        }),
        Err(fault) => Err(fault),
    }
}

/// Reads the suffix of `bytes`, and then the bytes before it.
///
/// # Errors
///
/// The first fault of the suffix, or else the first fault of the bytes before the suffix.
#[tactic(auto, unfolding(crate::specs::dfuse::Reading::file_at))]
fn read_file(bytes: &[u8]) -> Result<File<'_>, FileFault>
    ensures { result ≡ file_at bytes.now }
{
    match read_suffix(bytes) {
        Ok(suffixed) => read_body(suffixed.ids, bytes.len(), suffixed.payload),
        Err(fault) => Err(fault),
    }
}

/// Reads a DfuSe file. The size in its prefix may include the suffix, as dfu-util's tools write it, or not, as ST's tools do. If the dwCRC
/// is wrong, no fault in the bytes before the suffix is reported.
///
/// # Errors
///
/// The first fault that is found, in the order that [`FileFault`] describes.
pub fn read(bytes: &[u8]) -> Result<File<'_>, FileFault>
    // By the grammar, the bytes are an encoding of the returned file.
    ensures found { IfOk result (λ f. IsDfuSe f bytes.now) }
    // Every file that follows the grammar is read.
    ensures only { (f : DfuseContent) → IsDfuSe f bytes.now → result ≡ Ok f }
    // For any other bytes, the result is their first fault.
    ensures fault { (fault : FileFault) → (result ≡ Err fault) ↔ FirstFileFault fault bytes.now }
{
    read_file(bytes)
}

impl<'f> File<'f> {
    /// Returns the identifiers of the device that the file is for.
    pub fn ids(&self) -> Ids
        ensures { result ≡ self.now.ids }
    {
        self.ids
    }

    /// Returns the targets, in the order of the file.
    pub fn targets(&self) -> Targets<'f>
        ensures { result ≡ self.now.targets }
    {
        Targets::new(self.count, self.targets)
    }

    /// Returns the alternate setting of all targets, or None if they have different ones.
    pub fn setting(&self) -> Option<u8>
        ensures { result ≡ one_setting self.now.targets }
    {
        let mut targets = self.targets();
        let first = match targets.next_target() {
            Some(target) => target.setting,
            None => return None,
        };
        while let Some(target) = targets.next_target() {
            if target.setting != first {
                return None;
            }
        }
        Some(first)
    }
}
