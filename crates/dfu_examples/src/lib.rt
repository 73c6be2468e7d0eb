//! Examples to copy: a medium on a chip or on flash, a bootloader and a flashing tool, each on top of a driver trait; an installation and a
//! restart on any medium; and a session over a link in memory.
#![tactic(auto)]

mod bootloader;
mod flasher;
mod fram;
mod image;
mod nor;
mod simulated;

pub use bootloader::{Happened, Start, Transfer, UsbDevice, boot, load, serve, tell};
pub use flasher::{UsbHost, flash};
pub use fram::{Chip, ChipFault, Fram};
pub use image::{install, restarted};
pub use nor::{Flash, Nor};
pub use simulated::installs;
