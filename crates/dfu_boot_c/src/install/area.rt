//! Record of a run area that a program in C keeps.
ghost use Rattle.std.specs.Prelude.{◌≡◌};
ghost use Rattle.dfu_boot_c.specs.install.Calls.{last_of, number_of_place};

/// Record of a run area between two calls: `struct dfu_run_area`.
#[repr(C)]
#[derive(Drop)]
pub struct DfuRunArea {
    /// Number of bytes in a sector.
    pub sector: u32,
    /// Offset of the last operation if it succeeded after the last power on, else FFFFFFFFh.
    pub last: u32,
}

/// Returns the offset that a number of the record encodes; None for FFFFFFFFh.
pub(crate) fn last_of(number: u32) -> Option<u32>
    ensures { result ≡ last_of number }
{
    if number == 0xffff_ffff {
        None
    } else {
        Some(number)
    }
}

/// Returns the number that encodes an offset in the record; FFFFFFFFh for None.
pub(crate) fn number_of(last: Option<u32>) -> u32
    ensures { result ≡ number_of_place last }
{
    match last {
        Some(at) => at,
        None => 0xffff_ffff,
    }
}
