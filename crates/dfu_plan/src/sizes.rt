//! Sizes and addresses in the words of a line: decimal digits, decimal digits before `k` or `K` for KiB, or hexadecimal digits after `0x`
//! or `0X`.

ghost use Rattle.std.specs.Prelude.{◌≡◌, ◌≤◌, ◌<◌, ◌^◌, IfSome};
ghost use Rattle.dfu_plan.specs.Sizes.{size_digit, size_number, number_with_digit, size_in, bytes_of_kib};

/// Returns the value of a hexadecimal digit, or 16 for any other byte.
fn size_digit(byte: u8) -> u64
    ensures value { result ≡ size_digit byte }
    ensures small { result ≤ 16 }
{
    match byte {
        b'0'..=b'9' => (byte - b'0') as u64,
        b'a'..=b'f' => (byte - b'a') as u64 + 10,
        b'A'..=b'F' => (byte - b'A') as u64 + 10,
        _ => 16,
    }
}

/// Returns the number with one more digit. None means that there is no number, that the byte is not a digit in this base, or that the
/// result is over 4,294,967,295.
#[tactic(auto, using(std::proofs::lemmas::Bool::Decides::nat_tests), unfolding(crate::specs::Sizes::number_with_digit))]
fn number_with_digit(base: u64, number: Option<u32>, byte: u8) -> Option<u32>
    requires base { base ≤ 16 }
    ensures { result ≡ number_with_digit base number byte }
{
    let Some(number) = number else {
        return None;
    };
    let digit = size_digit(byte);
    let next = number as u64 * base + digit;
    if digit < base && next <= u32::MAX as u64 {
        return Some(next as u32);
    }
    None
}

/// Returns the value of `digits` in this base. None means that there are no digits, that a byte is not a digit, or that the value is over
/// 4,294,967,295.
#[tactic(auto, using(std::proofs::lemmas::Bool::Decides::nat_tests), unfolding(crate::specs::Sizes::size_number))]
fn size_number(base: u64, digits: &[u8]) -> Option<u32>
    requires base { base ≤ 16 }
    ensures { result ≡ size_number base digits.now }
{
    if digits.is_empty() {
        return None;
    }
    let mut number = Some(0);
    for byte in digits {
        number = number_with_digit(base, number, *byte);
    }
    number
}

/// Returns the number of bytes in a number of KiB. None means that there is no number, or that the bytes are over 4,294,967,295.
#[tactic(auto, using(std::proofs::lemmas::Bool::Decides::nat_tests), unfolding(crate::specs::Sizes::bytes_of_kib))]
fn bytes_of_kib(number: Option<u32>) -> Option<u32>
    ensures { result ≡ bytes_of_kib number }
{
    match number {
        Some(number) if number < 4_194_304 => Some(number * 1024),
        _ => None,
    }
}

/// Returns the number in the word of a size or an address, such as `32k`, `32K`, `0x8000` or `32768`, up to 4,294,967,295. Returns None for
/// any other word.
#[tactic(auto, using(std::proofs::lemmas::Bool::Decides::nat_tests), unfolding(crate::specs::Sizes::size_in))]
pub fn size_in(word: &[u8]) -> Option<u32>
    ensures { result ≡ size_in word.now }
{
    let length = word.len();
    if length >= 2 && word[0] == b'0' && (word[1] == b'x' || word[1] == b'X') {
        let (_, digits) = word.split_at(2);
        return size_number(16, digits);
    }
    if length >= 1 && (word[length - 1] == b'k' || word[length - 1] == b'K') {
        let (digits, _) = word.split_at(length - 1);
        return bytes_of_kib(size_number(10, digits));
    }
    size_number(10, word)
}
