//! Laws of a run area. Each is the contract of a function with an empty body. The contracts are proved, and no program needs to call the
//! functions.
ghost use Rattle.dfu_boot.specs.install.Allowed.{DueIsAllowed};
ghost use Rattle.dfu_boot.specs.install.Courses.{StartsOnlyWhole, NeighboursUnchanged, ProgramsOnlyFresh};
ghost use Rattle.dfu_boot.specs.install.Working.{FewOperations, FilledAreaStarts};

/// For any bytes of the run area, each erase covers a whole sector in which a byte differs from the image. Each program covers a blank
/// piece in which a byte differs, in the sector of the last operation.
pub fn does_only_allowed()
    ensures { DueIsAllowed }
{}

/// An image is started only if the run area holds all of it. This holds after any losses of power and any failed, incomplete or wrongly
/// reported operations, in any order, as long as an operation changes no bytes outside its range.
pub fn starts_only_whole()
    ensures { StartsOnlyWhole }
{}

/// After any events, the bytes of a sector that no image reaches are unchanged.
pub fn leaves_what_is_beside()
    ensures { NeighboursUnchanged }
{}

/// After any events since the first power on, a piece is programmed only if its sector was erased since the last power on, and only once
/// after that erase. Flash with ECC requires this.
pub fn programs_only_fresh()
    ensures { ProgramsOnlyFresh }
{}

/// If the run area holds the image, the next operation is Start.
pub fn held_is_started()
    ensures { FilledAreaStarts }
{}

/// On a medium without failures, an image in n sectors of k pieces is started after at most n * (1 + k) + k operations.
pub fn few_operations()
    ensures { FewOperations }
{}
