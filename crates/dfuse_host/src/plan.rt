//! Plan of a session: an image and the memory that receives it.

ghost use Rattle.std.specs.Prelude.{◌≡◌, ◌+◌, ◌≤◌, ◌<◌, ◌^◌, IfSome};
ghost use Rattle.dfuse_host.specs.Plans.{page_of, page_start, page_end, element_end, front_end, block_size, write_end, read_end};

use crate::image::{element_at, end_of, image_start};
use dfu_formats::dfuse::Element;
use dfu_formats::memory::{Map, Page};

/// Plan of a session: the image to write, the memory that receives it, and options.
#[derive(Clone, Copy)]
pub struct Plan<'f> {
    /// Map of the memory.
    pub map: &'f Map<'f>,
    /// Image to write.
    pub image: &'f [Element<'f>],
    /// Largest number of bytes in a block, 1 to 65,535. A session refuses a plan with 0.
    pub transfer: u16,
    /// Number of bytes at the beginning of the image that are written last. The front never extends beyond the first element and its first
    /// page.
    pub front: u16,
    /// True if the device must start its application after the whole image was compared.
    pub leaves: bool,
    /// Address at which the device must start its application.
    pub start: u32,
}

impl Plan<'_> {
    /// Returns the page of the map that contains address `at`, or None if no page does.
    #[tactic(auto, using(std::proofs::lemmas::Bool::Decides::nat_tests), unfolding(crate::specs::Plans::page_of))]
    fn page_of(&self, at: u64) -> Option<Page>
        ensures value { result ≡ page_of self.now at }
        ensures end_in_32_bits { IfSome result (λ p. p.start + p.size ≤ 2 ^ 32) }
    {
        if at >= 0x1_0000_0000 {
            return None;
        }
        self.map.page_at(at as u32)
    }

    /// Returns the address at which the page that contains `at` begins, or `at` if no page contains it.
    pub(crate) fn page_start(&self, at: u64) -> u64
        ensures { result ≡ page_start self.now at }
    {
        match self.page_of(at) {
            None => at,
            Some(page) => page.start as u64,
        }
    }

    /// Returns the address after the page that contains `at`, or `at` if no page contains it.
    pub(crate) fn page_end(&self, at: u64) -> u64
        ensures { result ≡ page_end self.now at }
    {
        match self.page_of(at) {
            None => at,
            Some(page) => page.start as u64 + page.size,
        }
    }

    /// Returns the address after the element that contains `at`, or `at` if no element contains it.
    fn element_end(&self, at: u64) -> u64
        ensures { result ≡ element_end self.now at }
    {
        match element_at(at, self.image) {
            None => at,
            Some(element) => end_of(&element),
        }
    }

    /// Returns the address after the front, which lies within the first element and its first page.
    #[tactic(auto, unfolding(crate::specs::Plans::front_end))]
    pub(crate) fn front_end(&self) -> u64
        ensures { result ≡ front_end self.now }
    {
        let at = image_start(self.image);
        (at + self.front as u64).min(self.element_end(at).min(self.page_end(at)))
    }

    /// Returns the largest number of bytes in a block; 1 if the plan's transfer size is 0.
    pub(crate) fn block_size(&self) -> u64
        ensures value { result ≡ block_size self.now }
        ensures at_least_1 { 1 ≤ result }
        ensures in_16_bits { result < 2 ^ 16 }
    {
        (self.transfer as u64).max(1)
    }

    /// Returns the address after the bytes that one DNLOAD writes from `at` on. It doesn't go beyond one block, one element, one page or
    /// `end`.
    #[tactic(auto, unfolding(crate::specs::Plans::write_end))]
    pub(crate) fn write_end(&self, at: u64, end: u64) -> u64
        ensures value { result ≡ write_end self.now at end }
        ensures within_64_kib { result < at + 2 ^ 16 }
    {
        at.saturating_add(self.block_size())
            .min(self.element_end(at).min(self.page_end(at)).min(end))
    }

    /// Returns the address after the bytes that one UPLOAD reads from `at` on. It doesn't go beyond one block, one element or `end`.
    #[tactic(auto, unfolding(crate::specs::Plans::read_end))]
    pub(crate) fn read_end(&self, at: u64, end: u64) -> u64
        ensures value { result ≡ read_end self.now at end }
        ensures within_64_kib { result < at + 2 ^ 16 }
    {
        at.saturating_add(self.block_size())
            .min(self.element_end(at).min(end))
    }
}
