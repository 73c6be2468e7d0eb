//! Laws of sessions with a DfuSe device. Each law is the proved contract of a function that only calls other laws and has no effect. Every
//! law except `sessions_end_in_time` assumes that a session can begin with the plan and that the ranges of its map are sound. A law about
//! the memory also assumes that the plan and the device use the same block size.

ghost use Rattle.dfuse_link.specs.Counts.{CleanRunsAreCounted, PlansHaveCounts};
ghost use Rattle.dfuse_link.specs.Fronts.{NoMixture, NoneButErasing, RestInMemory};
ghost use Rattle.dfuse_link.specs.Promises.{EndsWithinActions, HistoriesFollowRows, VerifiedIsTrue};
ghost use Rattle.dfuse_link.specs.Touched.{OtherPagesStay};

use dfu_formats::memory::laws::one_page;
use dfuse_host::laws::{only_touched, sessions_end, verified_is_read_back};

/// A session with a device ends after at most as many actions as its limits allow, or after one action if they allow none.
pub fn sessions_end_in_time()
    ensures rows { HistoriesFollowRows }
    ensures in_time { EndsWithinActions }
{
    sessions_end();
}

/// If a session reports Verified, the device's memory holds each element of the image. This holds even if requests were lost or repeated,
/// answers were lost, or the device restarted.
pub fn verified_is_true()
    ensures { VerifiedIsTrue }
{
    verified_is_read_back();
}

/// While a session writes the front, the device's memory holds each byte of the image after the front.
pub fn rest_stands()
    ensures { RestInMemory }
{
    verified_is_read_back();
}

/// A byte on a page without a byte of the image never changes, if the map is true of the image's pages and the device carries out no order
/// when the session begins.
pub fn others_stay()
    ensures { OtherPagesStay }
{
    verified_is_read_back();
    only_touched();
}

/// If the device works, the link loses nothing, and the limits allow the actions, a session ends as Verified after an exact number of
/// requests and waits. The number follows from the plan's pages and blocks, and each plan has such a number.
pub fn clean_runs_are_counted()
    ensures exact { CleanRunsAreCounted }
    ensures counts { PlansHaveCounts }
{
    one_page();
}

/// At each moment the front is blank, or no byte outside the front's page has changed, or the memory holds each byte of the image outside
/// that page. Unless the session's work is to erase a page, the front is blank, or the memory holds each byte of the image after the front,
/// including those on the front's page.
///
/// The law assumes that no two ranges of the map share an address, that the map is true of the image's pages, that an erase of the front's
/// page erases the front, and that the device carries out no order when the session begins.
pub fn no_mixture()
    ensures always { NoMixture }
    ensures but_erasing { NoneButErasing }
{
    one_page();
    verified_is_read_back();
    only_touched();
}
