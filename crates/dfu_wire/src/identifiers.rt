//! Identifiers written as four hexadecimal digits.

ghost use Rattle.std.specs.Prelude.{◌≡◌};
ghost use Rattle.dfu_wire.specs.Identifier.{identifier_in};

/// Returns the number in `digits`, four hexadecimal digits of either case with the highest first, or None for any other text. Scripts and
/// options contain idVendor, idProduct and bcdDevice in this form.
pub fn identifier(digits: &[u8]) -> Option<u16>
    ensures { result ≡ identifier_in digits.now }
{
    let mut bytes = [0u8; 2];
    match hex::decode_to_slice(digits, &mut bytes) {
        Ok(()) => Some(u16::from_be_bytes(bytes)),
        Err(_error) => None,
    }
}
