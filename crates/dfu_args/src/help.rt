//! The texts of `--help`.

/// Version that `--version` prints after the program's name.
pub(crate) const VERSION: &str = "0.3.0";

pub(crate) const DFU: &str = "dfu 0.3.0: firmware files and upgrades over USB (DFU 1.1)";

pub(crate) const DFU_EXAMPLE: &str = "\
Examples:
  dfu check firmware.dfu
  echo show | dfu run -

Exit status:
  0  done
  1  refused, with the reason's name: refused NAME
  2  the words aren't understood
  3  a file or a stream failed: fault Read or fault Write";

pub(crate) const EXPLAIN: &str = "Print the reason of a refusal on standard error";

pub(crate) const JSON: &str = "Print each line as a JSON object";

pub(crate) const CHECK: &str = "Check a DFU file and print what its suffix says";

pub(crate) const CHECK_FILE: &str = "The file, or - for standard input";

pub(crate) const CHECK_EXAMPLE: &str = "\
Example:
  dfu check firmware.dfu";

pub(crate) const ADD: &str = "Write a raw image and a suffix for it to a new file";

pub(crate) const ADD_FILE: &str = "The raw image, or - for standard input";

pub(crate) const ADD_OUT: &str = "The file to make; it may be FILE, and can't be -";

pub(crate) const ADD_VID: &str = "Vendor: four hexadecimal digits, as 1209; ffff is any";

pub(crate) const ADD_PID: &str = "Product: four hexadecimal digits, as 0001; ffff is any";

pub(crate) const ADD_DID: &str = "Device release: four hexadecimal digits, as 0100";

pub(crate) const ADD_FORMAT: &str =
    "Format of FILE; raw without it, or auto, ihex, srec, uf2 or elf";

pub(crate) const ADD_FILL: &str = "Byte for the gaps of an image; two hexadecimal digits, as ff";

pub(crate) const ADD_EXAMPLE: &str = "\
Examples:
  dfu add firmware.bin firmware.dfu --vid 1209 --pid 0001 --did 0100
  dfu add firmware.hex firmware.dfu --format auto --fill ff";

pub(crate) const EXTRACT: &str =
    "Write the payload of a DFU file, without its suffix, to a new file";

pub(crate) const EXTRACT_EXAMPLE: &str = "\
Example:
  dfu extract firmware.dfu firmware.bin";

pub(crate) const SET: &str = "Change the identifiers of a DFU file in place";

pub(crate) const SET_FILE: &str = "The file; it can't be -";

pub(crate) const SET_EXAMPLE: &str = "\
Example:
  dfu set firmware.dfu --vid 1209 --pid 0001";

pub(crate) const SHOW: &str = "Print the fields of bytes that go over the wire";

pub(crate) const SHOW_KIND: &str =
    "What the bytes are: functional, status, state, setup or configuration";

pub(crate) const SHOW_HEX: &str = "The bytes, two hexadecimal digits each";

pub(crate) const SHOW_EXAMPLE: &str = "\
Example:
  dfu show status 000500000400";

pub(crate) const RUN: &str = "Play a script of events on a simulated link of a host and a device";

pub(crate) const RUN_SCRIPT: &str = "The script, or - for standard input";

pub(crate) const RUN_TRACE: &str =
    "Print a line for each action of the host too, which begins with #";

pub(crate) const RUN_FILE: &str =
    "The file that FILE stands for in offer and verify, or - for standard input";

pub(crate) const RUN_EXAMPLE: &str = "\
Example, a file with 4 bytes of payload that is installed after 13 actions of the host:
  printf 'offer ffffffffffffffffffff00015546441071c8510c\\ngo pass 13\\n' | dfu run -";

pub(crate) const JUDGE: &str = "Check a log or a capture of DFU traffic against USB DFU 1.1";

pub(crate) const JUDGE_FILE: &str =
    "A log with a request and its answer on each line, or a pcap or pcapng capture; - for standard input";

pub(crate) const JUDGE_INTERFACE: &str = "The number of the DFU interface, 0 to 255";

pub(crate) const JUDGE_DEVICE: &str =
    "The device in a capture, as BUS.DEVICE, or only: the one that speaks DFU";

pub(crate) const JUDGE_DFUSE: &str = "Check against DfuSe, an extension of USB DFU 1.1";

pub(crate) const JUDGE_EXAMPLE: &str = "\
Example:
  dfu judge examples/captures/dfu-util.log

Exit status: 0 if the device conforms; 1 if it violates the standard, or conforms only with known deviations";

pub(crate) const PLAN: &str = "Place gates, headers and data on the flash of a part";

pub(crate) const PLAN_PART: &str = "The part, by its name in the table, as stm32f407";

pub(crate) const PLAN_BOOT: &str = "Size of the bootloader, as 32k, 0x8000 or 32768";

pub(crate) const PLAN_AREAS: &str = "Number of areas for data; 2, or 3 with a run area";

pub(crate) const PLAN_PARTS: &str =
    "A table of parts in place of the built-in one, or - for standard input";

pub(crate) const PLAN_EXAMPLE: &str = "\
Example:
  dfu plan --part stm32f407 --boot 32k";
