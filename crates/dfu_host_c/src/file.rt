//! Fields of a file, as a record for C.

ghost use Rattle.std.specs.Prelude.{◌≡◌, ℕ, ◌+◌, ◌-◌, ◌≤◌, List, length, drop, pos, ◌↔◌, IfOk, Ok, Err};
ghost use Rattle.byteorder.specs.Endian.{little_number};
ghost use Rattle.dfu_suffix.specs.Grammar.{First, IsFile};
ghost use Rattle.dfu_suffix.specs.declared.fault.SuffixFault.{SuffixFault};
ghost use Rattle.dfu_wire.specs.declared.ids.Ids.{Ids};
ghost use Rattle.dfu_host_c.specs.FileRecords.{record_of};
ghost use Rattle.dfu_host_c.specs.Refusals.{refused_number};
ghost use Rattle.dfu_host_c.specs.declared.refusals.HostRefusal.TheVariants.{File as FileRefusal};

use crate::refusals::HostRefusal;
use byteorder::{ByteOrder, LittleEndian};
use dfu_suffix::{File, SuffixFault, read_small};

/// `struct dfu_file`: the fields of a file. The header explains each number.
#[repr(C)]
#[derive(Drop)]
pub struct DfuFile {
    /// Length of the payload in bytes, at most 16,777,200.
    pub payload: u64,
    /// bLength: length of the suffix in bytes, 16 to 255.
    pub suffix: u32,
    /// dwCRC: CRC of the file.
    pub crc: u32,
    /// bcdDevice: release of the device.
    pub device: u16,
    /// idProduct: product of the device.
    pub product: u16,
    /// idVendor: vendor of the device.
    pub vendor: u16,
    /// bcdDFU: version of the DFU format.
    pub dfu: u16,
}

/// Returns the CRC in the last four bytes, low byte first.
fn crc_in(bytes: &[u8]) -> u32
    requires { 16 ≤ length bytes.now }
    ensures { result ≡ little_number 4 (drop (length bytes.now - 4) bytes.now) }
{
    let (_, last) = bytes.split_at(bytes.len() - 4);
    LittleEndian::read_u32(last)
}

/// Returns the record of a file that was read from `bytes`.
fn record_of(file: &File<'_>, bytes: &[u8]) -> DfuFile
    requires { 16 ≤ length bytes.now }
    ensures { result ≡ record_of file.now.payload file.now.ids file.now.dfu file.now.suffix bytes.now }
{
    let ids = file.ids();
    DfuFile {
        payload: file.payload().len() as u64,
        suffix: u32::from(file.suffix()),
        crc: crc_in(bytes),
        device: ids.device,
        product: ids.product,
        vendor: ids.vendor,
        dfu: file.dfu(),
    }
}

/// Reads a file, or returns its first fault. The small table of the CRC suffices, because a file is read only once. The function isn't
/// inlined, to save space.
#[inline(never)]
pub(crate) fn file_in(bytes: &[u8]) -> Result<File<'_>, SuffixFault>
    ensures found { IfOk result (λ f. (extra : List ℕ) × IsFile f.payload f.ids f.dfu extra bytes.now × (f.suffix ≡ 16 + length extra)) }
    ensures only { (payload : List ℕ) (ids : Ids) (dfu : ℕ) (extra : List ℕ) → IsFile payload ids dfu extra bytes.now
        → result ≡ Ok (record { payload = payload; ids = ids; dfu = dfu; suffix = 16 + length extra }) }
    ensures fault { (fault : SuffixFault) → (result ≡ Err fault) ↔ First fault bytes.now }
{
    read_small(bytes)
}

/// Reads `file` into `out`. Returns 0, or the number of its first fault.
#[unsafe(no_mangle)]
pub extern "C" fn dfu_host_file(file: &[u8], out: &mut DfuFile) -> i32
    ensures found { result ≡ pos 0 → (payload : List ℕ) × (ids : Ids) × (dfu : ℕ) × (extra : List ℕ) × IsFile payload ids dfu extra file.now
        × (out.new ≡ record_of payload ids dfu (16 + length extra) file.now) }
    ensures only { (payload : List ℕ) (ids : Ids) (dfu : ℕ) (extra : List ℕ) → IsFile payload ids dfu extra file.now → result ≡ pos 0 }
    ensures fault { (fault : SuffixFault) → First fault file.now → (result ≡ refused_number (FileRefusal fault)) × (out.new ≡ out.old) }
{
    match file_in(file) {
        Ok(read) => {
            *out = record_of(&read, file);
            0
        }
        Err(fault) => HostRefusal::File(fault).number(),
    }
}
