//! Laws of sessions. Each law is the proved contract of a function with an empty body, which isn't meant to be called.

ghost use Rattle.dfuse_host.specs.Budget.{OverInTime, OverSessionIsStable};
ghost use Rattle.dfuse_host.specs.Forgetting.{RestartForgetsPointer};
ghost use Rattle.dfuse_host.specs.ReadBack.{OnlyReadBack, AlwaysClosesAfterCompare};
ghost use Rattle.dfuse_host.specs.ReadInRun.{VerifiedReadEachByte};
ghost use Rattle.dfuse_host.specs.Touching.{WorkAlwaysTouchesImage, OnlyTouchedPagesChange, FrontIsWrittenLast};

/// A session is over after as many calls of `take` as it has actions, no matter which results it gets. A session without actions is over
/// after one call. A session that is over never changes.
pub fn sessions_end()
    ensures in_time { OverInTime }
    ensures stays { OverSessionIsStable }
{}

/// A byte counts as read back only after the session has found it equal in an answer to UPLOAD, and no longer once the session erases its
/// page or writes the byte again. For example, a session that ends as Verified has read back each byte of the image since the last write of
/// this byte.
pub fn verified_is_read_back()
    ensures only { OnlyReadBack }
    ensures closes { AlwaysClosesAfterCompare }
    ensures each { VerifiedReadEachByte }
{}

/// For any results, a session erases only pages that contain a byte of the image, and each write covers only bytes of the image on one
/// page. When it writes bytes of the front, it has read back each byte after the front.
pub fn only_touched()
    ensures always { WorkAlwaysTouchesImage }
    ensures only { OnlyTouchedPagesChange }
    ensures front_last { FrontIsWrittenLast }
{}

/// After a restart, a session that isn't over knows nothing about the device's address pointer, so it must set the pointer before it writes
/// or reads.
pub fn restart_forgets_the_pointer()
    ensures { RestartForgetsPointer }
{}
