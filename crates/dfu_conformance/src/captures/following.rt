//! The device whose requests the log contains.

use crate::captures::address::Address;
use crate::captures::exchange::Exchange;
use crate::captures::fault::CaptureFault;

/// Device whose requests the log contains: the one at the chosen address, or the only DFU device, whose address changes at a reset.
#[derive(Drop)]
pub(crate) struct Followed {
    // The chosen address, or None to follow the only device.
    only: Option<Address>,
    // Address of the last request. It is kept only if no address was chosen.
    last: Option<Address>,
    // Last address that a reset gave to the followed device.
    given: Option<Address>,
}

impl Followed {
    /// Follows the device at `only`, or the only device if `only` is None.
    pub(crate) fn new(only: Option<Address>) -> Followed {
        Followed {
            only,
            last: None,
            given: None,
        }
    }

    /// Returns true if `address`, which a device received after a reset, may be the address of the followed device. In this case, keeps the
    /// address.
    fn note_given_address(&mut self, address: Address) -> bool {
        let is_it = match self.only {
            Some(only) => only == address,
            None => true,
        };
        if is_it {
            self.given = Some(address);
        }
        is_it
    }

    /// Returns true if a request to `address` is for the followed device.
    ///
    /// # Errors
    ///
    /// ManyDevices if no address was chosen, and the request is for a second device.
    fn takes_request(&mut self, address: Address) -> Result<bool, CaptureFault> {
        if let Some(only) = self.only {
            return Ok(only == address);
        }
        let before = self.last;
        match before {
            Some(last) if last != address && self.given != Some(address) => {
                return Err(CaptureFault::ManyDevices);
            }
            _ => {}
        }
        self.last = Some(address);
        Ok(true)
    }

    /// Returns true if `exchange` has a line in the log.
    ///
    /// # Errors
    ///
    /// ManyDevices if no address was chosen, and the exchange is with a second device; CutPacket if some bytes of an exchange with the
    /// followed device were not captured.
    pub(crate) fn shows(&mut self, exchange: &Exchange<'_>) -> Result<bool, CaptureFault> {
        if let Some(address) = exchange.given {
            return Ok(self.note_given_address(address));
        }
        match self.takes_request(exchange.address) {
            Ok(true) if exchange.is_cut => Err(CaptureFault::CutPacket),
            answer => answer,
        }
    }
}
