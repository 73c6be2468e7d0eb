//! The identifiers that the options of `dfu add` and `dfu set` specify.

ghost use Rattle.std.specs.Prelude.{◌≡◌, option_and_then, option_map};
ghost use Rattle.std.specs.String.{string_bytes};
ghost use Rattle.dfu_wire.specs.Identifier.{identifier_in};
ghost use Rattle.dfu_cmd.specs.Identifiers.{change_in_texts, ids_in_texts, wrong_option};

use dfu_fs::Change;
use dfu_wire::{Ids, identifier};

/// Texts of the options `--vid`, `--pid` and `--did`.
#[derive(Clone, Copy)]
pub(crate) struct IdTexts<'t> {
    /// Text of `--vid`.
    pub vendor: &'t str,
    /// Text of `--pid`.
    pub product: &'t str,
    /// Text of `--did`.
    pub device: &'t str,
}

impl<'t> IdTexts<'t> {
    /// Returns the three texts as one value.
    pub(crate) fn new(vendor: &'t str, product: &'t str, device: &'t str) -> IdTexts<'t>
        ensures vendor { result.vendor.now ≡ vendor.now }
        ensures product { result.product.now ≡ product.now }
        ensures device { result.device.now ≡ device.now }
    {
        IdTexts {
            vendor,
            product,
            device,
        }
    }
}

/// Returns the identifiers in `texts`, or None if a text doesn't have four hexadecimal digits.
pub(crate) fn ids_in_texts(texts: &IdTexts<'_>) -> Option<Ids>
    ensures { result ≡ ids_in_texts texts.now.vendor.now texts.now.product.now texts.now.device.now }
{
    let vendor = identifier(texts.vendor.as_bytes())?;
    let product = identifier(texts.product.as_bytes())?;
    let device = identifier(texts.device.as_bytes())?;
    Some(Ids {
        device,
        product,
        vendor,
    })
}

/// Returns the label and text of the first option whose text isn't an identifier, or None if all three texts are identifiers.
pub(crate) fn wrong_option<'t>(texts: &IdTexts<'t>) -> Option<(&'static str, &'t str)>
    ensures { option_map (λ o. (o.0.now, o.1.now)) result
        ≡ wrong_option texts.now.vendor.now texts.now.product.now texts.now.device.now }
{
    if identifier(texts.vendor.as_bytes()).is_none() {
        return Some(("--vid ", texts.vendor));
    }
    if identifier(texts.product.as_bytes()).is_none() {
        return Some(("--pid ", texts.product));
    }
    if identifier(texts.device.as_bytes()).is_none() {
        return Some(("--did ", texts.device));
    }
    None
}

/// Returns the identifier in `text`, or None if there is no text or it doesn't have four hexadecimal digits.
fn number_in(text: &Option<String>) -> Option<u16>
    ensures { result ≡ option_and_then identifier_in (option_map string_bytes text.now) }
{
    match text {
        Some(text) => identifier(text.as_bytes()),
        None => None,
    }
}

/// Returns the change of identifiers that the texts specify. A text with four hexadecimal digits sets its identifier, and the other
/// identifiers stay unchanged.
pub(crate) fn change_in_texts(
    vendor: &Option<String>,
    product: &Option<String>,
    device: &Option<String>,
) -> Change
    ensures { result ≡ change_in_texts (option_map string_bytes vendor.now) (option_map string_bytes product.now)
        (option_map string_bytes device.now) }
{
    Change {
        vendor: number_in(vendor),
        product: number_in(product),
        device: number_in(device),
    }
}
