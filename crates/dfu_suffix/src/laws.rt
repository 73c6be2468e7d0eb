//! Laws of the file format, stated as proved contracts of empty functions.

ghost use Rattle.dfu_suffix.specs.Laws.{EitherFileOrFault, ZeroRegisterByLastFour, OneReading};

/// Bytes either are a file of the grammar, which can be read in only one way, or have a first fault.
pub fn one_reading()
    ensures either { EitherFileOrFault }
    ensures one { OneReading }
{}

/// The register over four bytes or more is 0 exactly if the number in the last four is the register over the bytes before them.
pub fn last_four()
    ensures { ZeroRegisterByLastFour }
{}
