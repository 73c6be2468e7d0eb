//! The version of the library.

ghost use Rattle.std.specs.Prelude.{◌≡◌, pos};
ghost use Rattle.dfu_host_core.specs.Sessions.{version};

/// The version, 0.3.0: 10,000 for each major, 100 for each minor and 1 for each patch version.
pub(crate) const VERSION: u32 = 300;

/// Returns the version of the library, which the library also writes into each record.
#[unsafe(no_mangle)]
pub extern "C" fn dfu_host_version() -> i32
    ensures { result ≡ pos version }
{
    VERSION as i32
}
