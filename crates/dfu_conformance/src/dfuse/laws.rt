//! A law of the DfuSe table, stated as the proved contract of an empty function.

ghost use Rattle.dfu_conformance.specs.dfuse.Laws.{StandardIsIncluded};

/// A DfuSe device may give every answer that a USB DFU 1.1 device with its bmAttributes and habits may give.
pub fn standard_is_kept()
    ensures { StandardIsIncluded }
{}
