//! Facts about a configuration and the library, for a program in C.
ghost use Rattle.std.specs.Prelude.{◌≡◌, ◌⊎◌, ◌<◌, IsTrue, not, pos, slice_index};
ghost use Rattle.dfu_wire.specs.Functional.{IsFunctional};
ghost use Rattle.dfu_core.specs.Config.{version, config_setting, IsConfig};
ghost use Rattle.dfu_core.specs.Numbers.{NO_CONFIG_NUMBER};

use dfu_core::{DfuConfig, VERSION, functional_of, settings_of};

// Returns true exactly if a configuration is allowed: it has the library's version, `Config::new` accepts its numbers, and a unit and
// sectors with its sizes exist.
fn is_allowed(config: &DfuConfig) -> bool
    ensures yes { IsTrue result → IsConfig config.now }
    ensures no { IsTrue (not result) → ¬ IsConfig config.now }
{
    match settings_of(config) {
        Some(_) => true,
        None => false,
    }
}

/// Writes the functional descriptor, 9 bytes, to `out`, and returns 9. Bits 4 to 7 of bmAttributes are 0 (USB DFU 1.1, section 4.1.3).
/// Returns -2 if the configuration is not allowed.
#[unsafe(no_mangle)]
pub extern "C" fn dfu_core_functional(config: &DfuConfig, out: &mut [u8; 9]) -> i32
    ensures outcome { ((result ≡ pos 9) × IsConfig config.now × IsFunctional (config_setting config.now).functional out.new)
        ⊎ ((result ≡ NO_CONFIG_NUMBER) × (¬ IsConfig config.now) × (out.new ≡ out.old)) }
    ensures reserved { result ≡ pos 9 → slice_index out.new 2 < 16 }
{
    if !is_allowed(config) {
        return -2;
    }
    *out = functional_of(config).encode();
    9
}

/// Returns the version of the library. Each configuration and each record begins with this number.
#[unsafe(no_mangle)]
pub extern "C" fn dfu_core_version() -> i32
    ensures { result ≡ pos version }
{
    VERSION as i32
}
