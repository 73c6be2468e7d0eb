//! Faults with which events are refused.

use dfu_host::HostFault;
use dfu_suffix::SuffixFault;
use std::fmt;
use thiserror::Error;

/// Fault with which an event is refused.
#[derive(Clone, Copy, Debug, Error)]
pub enum LinkFault {
    /// The event is an offer or an upload, but a session is live. This is checked first.
    HostBusy,
    /// The event is an abort or an action, but no session is live.
    NoHost,
    /// No session is live, and the offer or the upload is refused. For an offer the fault is that of `dfu_suffix::read`, else that of
    /// `Host::download`, or of `Host::download_verified` if the file is to be verified. For an upload it is that of `Host::upload`.
    BadOffer(OfferFault),
    /// Memory for a report is exhausted. Only `run` returns this fault.
    NoMemory,
}

impl fmt::Display for LinkFault {
    fn fmt<W: fmt::Write>(&self, f: &mut fmt::Formatter<W>) -> fmt::Result {
        f.write_str(match self {
            LinkFault::HostBusy => "a session is live already",
            LinkFault::NoHost => "no session is live",
            LinkFault::BadOffer(fault) => return write!(f, "the session is refused: {}", fault),
            LinkFault::NoMemory => "out of memory",
        })
    }
}

/// Fault of a refused offer or upload.
#[derive(Clone, Copy, Debug, Error)]
pub enum OfferFault {
    /// The bytes are not a DFU file. This is the first fault of `dfu_suffix::read`; only an offer is refused with it.
    Suffix(SuffixFault),
    /// The host refuses the session. For an offer this is the first fault of `Host::download`, or of `Host::download_verified` if the file
    /// is to be verified, with the device's descriptor and identifiers. For an upload it is that of `Host::upload` with the descriptor.
    Host(HostFault),
}

impl fmt::Display for OfferFault {
    fn fmt<W: fmt::Write>(&self, f: &mut fmt::Formatter<W>) -> fmt::Result {
        match self {
            OfferFault::Suffix(fault) => fmt::Display::fmt(fault, f),
            OfferFault::Host(fault) => fmt::Display::fmt(fault, f),
        }
    }
}
