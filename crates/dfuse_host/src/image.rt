//! Bytes of an image and their addresses.

ghost use Rattle.std.specs.Prelude.{◌≡◌, ◌≤◌, ◌<◌, ◌+◌, ◌^◌, length, IfSome};
ghost use Rattle.dfuse_host.specs.Images.{end_of, element_holds, element_at, next_byte, image_start, image_end};

use dfu_formats::dfuse::Element;

/// Returns the address after the last byte of `element`.
pub(crate) fn end_of(element: &Element<'_>) -> u64
    ensures value { result ≡ end_of element.now }
    ensures in_64_bits { result < 2 ^ 63 + 2 ^ 32 }
{
    element.address as u64 + element.bytes.len() as u64
}

/// Returns true if `element` has a byte at address `at`.
fn holds(at: u64, element: &Element<'_>) -> bool
    ensures { result ≡ element_holds at element.now }
{
    element.address as u64 <= at && at < end_of(element)
}

/// Returns the first element of `image` that has a byte at address `at`, or None if there is none.
#[tactic(auto, unfolding(crate::specs::Images::element_at))]
pub(crate) fn element_at<'f>(at: u64, image: &[Element<'f>]) -> Option<Element<'f>>
    ensures value { result ≡ element_at at image.now }
    ensures has { IfSome result (λ e. (e.address ≤ at) × (at < end_of e)) }
{
    for element in image {
        if holds(at, element) {
            return Some(*element);
        }
    }
    None
}

/// Returns the first address from `at` on at which `image` has a byte, or None if there is none. The elements must ascend, and none may be
/// empty.
#[tactic(auto, unfolding(crate::specs::Images::next_byte))]
pub(crate) fn next_byte(at: u64, image: &[Element<'_>]) -> Option<u64>
    ensures { result ≡ next_byte at image.now }
{
    for element in image {
        if at < end_of(element) {
            return Some(at.max(element.address as u64));
        }
    }
    None
}

/// Returns the address at which the first element of `image` begins; 0 if it has no element.
#[tactic(auto, unfolding(crate::specs::Images::image_start))]
pub(crate) fn image_start(image: &[Element<'_>]) -> u64
    ensures value { result ≡ image_start image.now }
    ensures in_32_bits { result < 2 ^ 32 }
{
    if image.len() == 0 {
        return 0;
    }
    image[0].address as u64
}

/// Returns the highest address at which an element of `image` ends; 0 if it has no element.
#[tactic(auto, unfolding(crate::specs::Images::image_end))]
pub(crate) fn image_end(image: &[Element<'_>]) -> u64
    ensures { result ≡ image_end image.now }
{
    let mut end = 0;
    for element in image {
        end = end_of(element).max(end);
    }
    end
}
