//! Elements of a DfuSe file for an alternate setting, for C.

ghost use Rattle.std.specs.Prelude.{◌≡◌, ◌⊎◌, length, pos};
ghost use Rattle.dfu_host_c.specs.dfuse.Files.{HasFileElements, HasNoElements, IsNoDfuSe};

use crate::refusals::HostRefusal;
use dfu_formats::dfuse::read;
use dfuse_host::Element;

/// Writes the elements of the DfuSe file `file` for alternate setting `setting` to the front of `places`, in the order of the file, and
/// their number to `count`. Returns 0; the number of the file's first fault; or the number of the image's fault, if the file has no image
/// for the setting or more elements than fit in `places`.
#[unsafe(no_mangle)]
pub extern "C" fn dfuse_file_image<'f>(
    file: &'f [u8],
    setting: u8,
    places: &mut [Element<'f>],
    count: &mut u64,
) -> i32
    ensures size { length places.new ≡ length places.old }
    ensures outcome { ((result ≡ pos 0) × HasFileElements file.now setting places.old places.new count.new)
        ⊎ (IsNoDfuSe file.now result × (places.new ≡ places.old) × (count.new ≡ count.old))
        ⊎ (HasNoElements file.now setting (length places.old) result × (count.new ≡ count.old)) }
{
    let read = match read(file) {
        Ok(read) => read,
        Err(fault) => return HostRefusal::DfuseFile(fault).number(),
    };
    match read.listed(setting, places) {
        Ok(found) => {
            *count = found as u64;
            0
        }
        Err(fault) => HostRefusal::Image(fault).number(),
    }
}
