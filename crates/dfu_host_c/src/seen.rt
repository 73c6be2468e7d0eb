//! Results of actions by their numbers.

ghost use Rattle.std.specs.Prelude.{◌≡◌};
ghost use Rattle.dfu_host_core.specs.SeenNumbers.{seen_at};
ghost use Rattle.dfu_host_c.specs.dfuse.SeenNumbers.{dfuse_seen_at};

use dfu_host::Seen;
use dfuse_host::Seen as DfuseSeen;

/// Maps the number of a result to the result; the entries after `$bytes` are results that only one of the hosts has. None if no result has
/// the number.
macro_rules! numbered {
    ($kind:ident, $number:ident, $bytes:ident $(, $own:literal => $name:ident)*) => {
        match $number {
            0 => Some($kind::Ack),
            1 => Some($kind::Bytes($bytes)),
            2 => Some($kind::Stall),
            3 => Some($kind::Nothing),
            4 => Some($kind::Waited),
            6 => Some($kind::Restarted),
            $($own => Some($kind::$name),)*
            _ => None,
        }
    };
}

/// Returns the result of an action with this number, 0 to 7; None over 7. Result 1 has the given bytes.
pub(crate) fn seen_at<'s>(number: u32, bytes: &'s [u8]) -> Option<Seen<'s>>
    ensures { result ≡ seen_at number bytes.entry }
{
    numbered!(Seen, number, bytes, 5 => WasReset, 7 => Left)
}

/// Returns the result of a DfuSe action with this number; None if no result has the number. Result 1 has the given bytes.
pub(crate) fn dfuse_seen_at<'s>(number: u32, bytes: &'s [u8]) -> Option<DfuseSeen<'s>>
    ensures { result ≡ dfuse_seen_at number bytes.entry }
{
    numbered!(DfuseSeen, number, bytes)
}
