//! Laws of a first slot from which programs run. Each law is the proved contract of a function with an empty body, which needn't be called.
ghost use Rattle.dfu_home.specs.Laws.{ImageStays, WritesTheFirstSlot, SecondIsSpare, FirstSlotIsKnown};

/// The active image stays active for any outcome of a due operation, even if it fails, reports a false success or is cut off with any bytes
/// in its range. So it stays active over any list of operations and losses of power.
pub fn image_stays()
    ensures { ImageStays }
{}

/// Each operation lies in the first slot. It erases a whole sector, or programs bytes that are FFh.
pub fn writes_the_first_slot()
    ensures { WritesTheFirstSlot }
{}

/// While the active image is in the first slot, the second slot is the spare slot.
pub fn second_is_spare()
    ensures { SecondIsSpare }
{}

/// No outcome of a due operation leaves another image in the first slot: if the slot's gate is open afterwards, the slot is unchanged, or
/// contains the active image.
pub fn first_slot_is_known()
    ensures { FirstSlotIsKnown }
{}
