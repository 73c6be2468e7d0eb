//! A device that lets its program write the flash, for programs in C. The caller owns the configuration, the record between two calls, the
//! memory of the block, and the flash.
#![tactic(auto)]

// Finds the device that a record represents, with a block's memory of `$room` bytes. If there is none, the enclosing function returns the
// number of the refusal.
macro_rules! find {
    ($asking:ident, $config:ident, $device:ident, $room:expr $(, $mutable:tt)?) => {
        let mut read = Err(CoreRefusal::NoDevice);
        found($config, $device, $room, &mut read);
        let $asking = match &$($mutable)? read {
            Ok($asking) => $asking,
            Err(refusal) => return refusal.number(),
        };
    };
}

// Stores the kind, offset and length of a write in `ask`. The bytes of the write are already in `ask`.
macro_rules! hand_out {
    ($piece:ident, $ask:ident) => {
        $ask.kind = kind_of($piece.erases);
        $ask.at = $piece.at as u32;
        $ask.length = $piece.len as u32;
    };
}

mod blank;
mod calls;
mod closes;
mod config;
mod format;
mod image;
mod long;
mod power;
mod refuse;
mod stalls;
mod tells;
