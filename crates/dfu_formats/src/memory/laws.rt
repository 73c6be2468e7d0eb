//! Laws of memory maps, stated as proved contracts of empty functions.

ghost use Rattle.dfu_formats.specs.memory.Lookups.{AddressOnOnePage};

/// If sound ranges share no address and `page_at` returns a page, it returns the same page for each address of this page.
pub fn one_page()
    ensures { AddressOnOnePage }
{}
