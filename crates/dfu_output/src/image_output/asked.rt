//! Values of the options `--format` and `--fill`.

ghost use Rattle.std.specs.Prelude.{◌≡◌, ◌≤◌, codes, None, Some};
ghost use Rattle.dfu_output.specs.FormatOptions.{IsUnknownFormat, fill_in};

use dfu_formats::images::{Format, hex_digit};

/// Format in which `dfu add` reads FILE.
#[derive(Clone, Copy)]
pub enum FormatChoice {
    /// No `--format`: FILE is read as a raw image, and a hint is printed if it looks like a file of another kind.
    Unsaid,
    /// FILE is read as a raw image.
    Raw,
    /// FILE is read as the image format that it looks like, and as a raw image if it looks like no known kind of file. It is refused if it
    /// looks like a file that isn't an image.
    Auto,
    /// FILE is read as a file of this format.
    As(Format),
}

/// Returns the byte that `word` specifies with two hexadecimal digits of either case, or None for any other text.
#[tactic(auto, using(std::proofs::lemmas::Bool::Decides::nat_tests))]
pub fn fill_in(word: &str) -> Option<u8>
    ensures { result ≡ fill_in word.now }
{
    match word.as_bytes() {
        [high, low] => {
            let high = hex_digit(*high);
            let low = hex_digit(*low);
            if high < 16 && low < 16 {
                Some(16 * high + low)
            } else {
                None
            }
        }
        _ => None,
    }
}

/// Returns the choice for `word`, a value of `--format`, or None if there is no such value.
pub fn format_choice_in(word: &str) -> Option<FormatChoice>
    ensures raw { word.now ≡ codes "raw" → result ≡ Some FormatChoice.Raw }
    ensures auto { word.now ≡ codes "auto" → result ≡ Some FormatChoice.Auto }
    ensures ihex { word.now ≡ codes "ihex" → result ≡ Some (FormatChoice.As Format.IntelHex) }
    ensures srec { word.now ≡ codes "srec" → result ≡ Some (FormatChoice.As Format.SRecord) }
    ensures uf2 { word.now ≡ codes "uf2" → result ≡ Some (FormatChoice.As Format.Uf2) }
    ensures elf { word.now ≡ codes "elf" → result ≡ Some (FormatChoice.As Format.Elf) }
    ensures other { IsUnknownFormat word.now → result ≡ None }
{
    match word {
        "raw" => Some(FormatChoice::Raw),
        "auto" => Some(FormatChoice::Auto),
        "ihex" => Some(FormatChoice::As(Format::IntelHex)),
        "srec" => Some(FormatChoice::As(Format::SRecord)),
        "uf2" => Some(FormatChoice::As(Format::Uf2)),
        "elf" => Some(FormatChoice::As(Format::Elf)),
        _ => None,
    }
}
