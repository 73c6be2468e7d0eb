//! Formats whose files consist of parts of equal size.

ghost use Rattle.std.specs.Prelude.{◌≡◌, ◌+◌, ◌*◌, ◌≤◌, ℕ, List, Result, length, IfOk};
ghost use Rattle.dfu_formats.specs.declared.images.fault.ImageFault as declared;
ghost use Rattle.dfu_formats.specs.images.Reading.{parts_read, IsReadResult, IsReadFault};
ghost use Rattle.dfu_formats.specs.images.Elements as elements;
ghost use Rattle.dfu_formats.specs.images.Elements.{AreApart, IsElementResult, empty_gathering, elements_by_part};

use crate::images::element::Element;
use crate::images::fault::ImageFault;
use crate::images::gathering::Gathering;
use std::alloc::Global;

/// A file that consists of parts of equal size. The value contains the facts about the whole file that are needed to read a part.
pub(crate) trait ByPart {
    /// Number of bytes in each part.
    ghost size: { Self → ℕ };

    /// Result of reading the part with this index.
    ghost part_read: { Self → (index : ℕ) → elements.Gathering → List ℕ → Result elements.Gathering declared.ImageFault };

    fn part_read(
        &self,
        alloc: Global,
        index: usize,
        gathering: Gathering,
        part: &[u8],
    ) -> Result<Gathering, ImageFault>
        requires { length part.now ≡ size self.now }
        ensures { IsReadResult result (part_read self.now index gathering part.now) };
}

/// Reads the first `total` parts, each of `size` bytes. Returns the elements gathered from them, or the first fault.
fn parts_read<F: ByPart>(
    alloc: Global,
    file: &F,
    size: usize,
    total: usize,
    parts: &[u8],
) -> Result<Gathering, ImageFault>
    requires sized { size ≡ F.size file.now }
    requires whole { total * size ≤ length parts.now }
    ensures { IsReadResult result (parts_read size (F.part_read file.now) total 0 empty_gathering parts.now) }
{
    let mut gathering = Gathering::new(alloc);
    let mut rest = parts;
    let mut index: usize = 0;
    while index < total {
        let (part, behind) = rest.split_at(size);
        gathering = match file.part_read(alloc, index, gathering, part) {
            Ok(next) => next,
            Err(fault) => return Err(fault),
        };
        rest = behind;
        index += 1;
    }
    Ok(gathering)
}

/// Reads the elements from the first `total` parts, each of `size` bytes.
pub(crate) fn elements_by_part<F: ByPart>(
    alloc: Global,
    file: &F,
    size: usize,
    total: usize,
    parts: &[u8],
) -> Result<Vec<Element>, ImageFault>
    requires sized { size ≡ F.size file.now }
    requires whole { total * size ≤ length parts.now }
    // The result is the elements of the parts, or the first fault.
    ensures value { IsElementResult result (elements_by_part size (F.part_read file.now) total parts.now) }
    // The elements are sorted by address, and no two share an address.
    ensures apart { IfOk result (λ v. AreApart 0 v.items) }
{
    match parts_read(alloc, file, size, total, parts) {
        Ok(gathering) => gathering.finish(),
        Err(fault) => Err(fault),
    }
}
