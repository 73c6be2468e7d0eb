//! The devices in a capture that receive DFU requests.

use crate::captures::address::Address;
use crate::captures::fault::CaptureFault;
use std::alloc::Global;

/// Largest number of addresses in a set. A bus has at most 127 devices.
const MAX_DEVICES: usize = 4096;

/// The addresses in a capture that receive DFU requests.
#[derive(Drop)]
pub struct Devices {
    // The addresses, each listed once.
    all: Vec<Address>,
}

impl Devices {
    /// Returns an empty set.
    pub(crate) fn new(alloc: Global) -> Devices {
        Devices {
            all: Vec::new(alloc),
        }
    }

    /// Returns true if `address` is in the set.
    pub(crate) fn has(&self, address: Address) -> bool {
        for one in &self.all {
            if *one == address {
                return true;
            }
        }
        false
    }

    /// Adds `address` to the set.
    ///
    /// # Errors
    ///
    /// ManyDevices if the set contains 4,096 other addresses; NoMemory if an allocation failed.
    pub(crate) fn add(&mut self, address: Address) -> Result<(), CaptureFault> {
        if self.has(address) {
            return Ok(());
        }
        if self.all.len() >= MAX_DEVICES {
            return Err(CaptureFault::ManyDevices);
        }
        match self.all.push(address) {
            Ok(()) => Ok(()),
            Err(_) => Err(CaptureFault::NoMemory),
        }
    }
}
