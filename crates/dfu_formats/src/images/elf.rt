//! 32-bit little-endian ELF files: the bytes that their segments load.

ghost use Rattle.std.specs.Prelude.{◌≡◌, ◌+◌, ◌*◌, ◌≤◌, ◌<◌, length, IfOk, true, Ok, Err};
ghost use Rattle.dfu_formats.specs.images.Reading.{IsReadResult, IsReadFault};
ghost use Rattle.dfu_formats.specs.images.Elements.{AreApart, IsElementResult};
ghost use Rattle.dfu_formats.specs.images.Elf.{is_elf, has_program_headers, segment_read, elf_elements_of};

use crate::images::element::Element;
use crate::images::fault::ImageFault;
use crate::images::gathering::Gathering;
use crate::images::numbers::{le16, le32};
use crate::images::parts::{ByPart, elements_by_part};
use std::alloc::Global;

/// Returns true if `file` has the header of a 32-bit little-endian ELF file.
#[tactic(auto, using(std::proofs::lemmas::Bool::Decides::nat_tests))]
fn is_elf(file: &[u8]) -> bool
    ensures value { result ≡ is_elf file.now }
    ensures long { result ≡ true → 52 ≤ length file.now }
{
    file.len() >= 52 && le32(file, 0) == 0x464c_457f && file[4] == 1 && file[5] == 1 && file[6] == 1
}

/// An ELF file, read segment by segment.
#[derive(Drop)]
struct Segments<'t> {
    file: &'t [u8],
}

impl ByPart for Segments<'_> {
    ghost size = { λ s. 32 };

    ghost part_read = { λ s. segment_read s.file.now };

    #[tactic(auto, using(std::proofs::lemmas::Bool::Decides::nat_tests), unfolding(crate::specs::images::Elf::segment_read))]
    fn part_read(
        &self,
        alloc: Global,
        index: usize,
        gathering: Gathering,
        header: &[u8],
    ) -> Result<Gathering, ImageFault> {
        let count = le32(header, 16) as usize;
        if le32(header, 0) != 1 || count == 0 {
            return Ok(gathering);
        }
        let from = le32(header, 4) as usize;
        let address = le32(header, 12) as u64;
        // The sum needs 64 bits, because two header fields can together exceed a 32-bit usize.
        if from as u64 + count as u64 > self.file.len() as u64 {
            return Err(ImageFault::CutSegment(index));
        }
        if address + count as u64 > 0x1_0000_0000 {
            return Err(ImageFault::PastTheEnd(index));
        }
        let (_, behind) = self.file.split_at(from);
        let (content, _) = behind.split_at(count);
        gathering.add(alloc, index, address, content)
    }
}

/// Reads the elements of ELF file `file`.
#[tactic(auto, using(std::proofs::lemmas::Bool::Decides::nat_tests), unfolding(crate::specs::images::Elf::elf_elements_of))]
pub fn read(alloc: Global, file: &[u8]) -> Result<Vec<Element>, ImageFault>
    // The result is the elements of the file, or its first fault.
    ensures value { IsElementResult result (elf_elements_of file.now) }
    // The elements are sorted by address, and no two share an address.
    ensures apart { IfOk result (λ v. AreApart 0 v.items) }
{
    if !is_elf(file) {
        return Err(ImageFault::NotElf);
    }
    let total = le16(file, 44) as usize;
    if total == 0 {
        return Gathering::new(alloc).finish();
    }
    let from = le32(file, 28) as usize;
    if le16(file, 42) != 32 || from as u64 + 32 * total as u64 > file.len() as u64 {
        return Err(ImageFault::CutHeader);
    }
    let (_, headers) = file.split_at(from);
    elements_by_part(alloc, &Segments { file }, 32, total, headers)
}
