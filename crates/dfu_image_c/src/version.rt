//! The version of the library, for C programs.

ghost use Rattle.std.specs.Prelude.{◌≡◌, pos};

/// Returns the version, 0.3.0, in the form of `dfu_host_version`. Another version may have another layout of `struct dfu_taken`.
#[unsafe(no_mangle)]
pub extern "C" fn dfu_image_version() -> i32
    ensures { result ≡ pos 300 }
{
    300
}
