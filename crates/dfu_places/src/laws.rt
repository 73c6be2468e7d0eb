//! Laws of a placement that was checked. Each is the contract of a function with an empty body. The contracts are proved, and no program
//! needs to call the functions.
ghost use Rattle.dfu_places.specs.Laws.{IsOneToOne, IsInOrder, ErasesWhole, ErasesApart, ErasesItsOwn, ErasesOwnSectors, UsedBytesAreFound};

/// Two virtual bytes on the part lie at different addresses.
pub fn is_one_to_one()
    ensures { IsOneToOne }
{}

/// If a range of virtual bytes lies in one gate, header or data, and on the part, its bytes have consecutive addresses, in the same order.
/// Therefore a torn program changes only bytes of its own range.
pub fn is_in_order()
    ensures { IsInOrder }
{}

/// An erase of a virtual sector erases whole sectors of one region, outside the bootloader.
pub fn erases_whole()
    ensures { ErasesWhole }
{}

/// Erases of two virtual sectors have no byte in common. Each erases whole sectors, so they have no sector in common.
pub fn erases_apart()
    ensures { ErasesApart }
{}

/// An erase of a virtual sector erases no virtual byte outside that sector.
pub fn erases_its_own()
    ensures { ErasesItsOwn }
{}

/// If a sector of the part shares a byte with the erase of a virtual sector, the sector lies in that erase, and contains no byte of another
/// virtual sector. Therefore an erase never changes bytes of another gate, header or data, although the part erases whole sectors.
pub fn erases_own_sectors()
    ensures { ErasesOwnSectors }
{}

/// All virtual bytes that the store uses are on the part: the units of gates and headers, the marks after the headers, and all data.
pub fn used_are_there()
    ensures { UsedBytesAreFound }
{}
