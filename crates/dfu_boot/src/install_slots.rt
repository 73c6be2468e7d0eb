//! Next operation that copies the active image of a slot store to a run area.
ghost use Rattle.std.specs.Prelude.{◌≡◌, ℕ, List};
ghost use Rattle.dfu_slots.specs.StoreView.{image_of};
ghost use Rattle.dfu_slots.specs.Image.{Active};
ghost use Rattle.dfu_boot.specs.install.Area.{AreaStores};
ghost use Rattle.dfu_boot.specs.install.Next.{IsNextDue};
ghost use Rattle.dfu_boot.specs.declared.install.due.Due.TheVariants.{Start};

use crate::install::{Due, next};
use dfu_slots::laws::active_image_is_one;
use dfu_slots::{Medium, Slots};

/// Returns the next operation that copies the active image of the store to the run area: the result of `install::next` for that image.
///
/// `memory` is the store's medium, mapped for reading. The store is not changed.
pub fn next_active<M: Medium>(
    slots: &Slots<M>,
    memory: &[u8],
    run: &[u8],
    sector: u32,
    last: Option<u32>,
) -> Due
    requires mapped { memory.now ≡ slots.now.medium.bytes }
    ensures does { IsNextDue (image_of slots.now) run.now sector last result }
    ensures started { (image : List ℕ) → Active slots.now.medium image → result ≡ Start → AreaStores run.now image }
{
    active_image_is_one();
    let at = slots.image_at() as usize;
    let end = at + slots.active_len() as usize;
    next(&memory[at..end], run, sector, last)
}
