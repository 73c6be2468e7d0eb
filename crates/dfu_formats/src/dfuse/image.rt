//! The elements of a file for one alternate setting.

ghost use Rattle.std.specs.Prelude.{◌≡◌, ◌≤◌, length, take, true, IfOk, MatchResult, None, Some};
ghost use Rattle.std.specs.List.Sorted.{IsPermutation};
ghost use Rattle.dfu_formats.specs.dfuse.Images.{ascends_from, elements_for, image_fault, IsImage, ElementsListedBehind};

use crate::dfuse::element::Element;
use crate::dfuse::file::File;
use crate::dfuse::listing::put;
use std::fmt;
use thiserror::Error;

/// Fault of a request for the elements of an alternate setting: the first one in this order that applies.
#[derive(Clone, Copy, Debug, Error)]
pub enum ImageFault {
    /// No target is for this alternate setting.
    NoSuchSetting,
    /// There are more elements than slots in `room`.
    TooManyElements,
}

/// Text of each fault, in the order of the enum.
static TEXTS: [&str; 2] = [
    "the file has nothing for this alternate setting",
    "the file has too many elements",
];

impl fmt::Display for ImageFault {
    fn fmt<W: fmt::Write>(&self, f: &mut fmt::Formatter<W>) -> fmt::Result {
        f.write_str(TEXTS[*self as usize])
    }
}

/// Sorts `elements` by their addresses.
fn sort_all(elements: &mut [Element<'_>])
    ensures size { length elements.new ≡ length elements.old }
    ensures permutation { IsPermutation elements.old elements.new }
    ensures sorted { ascends_from 0 elements.new ≡ true }
{
    elements.sort_unstable_by_key(|element| element.address);
}

/// Sorts the first `count` elements of `room` by their addresses.
fn sort(count: usize, room: &mut [Element<'_>])
    requires { count ≤ length room.old }
    ensures size { length room.new ≡ length room.old }
    ensures permutation { IsPermutation (take count room.old) (take count room.new) }
    ensures sorted { ascends_from 0 (take count room.new) ≡ true }
{
    sort_all(&mut room[..count]);
}

impl<'f> File<'f> {
    /// Writes the elements of all targets for an alternate setting to the front of `room`, in the order of the file. Returns their number.
    /// A session needs them sorted by address, as `image` writes them.
    ///
    /// # Errors
    ///
    /// NoSuchSetting, or TooManyElements if `room` has fewer slots than there are elements. After TooManyElements, `room` may have changed.
    pub fn listed(&self, setting: u8, room: &mut [Element<'f>]) -> Result<usize, ImageFault>
        ensures size { length room.new ≡ length room.old }
        ensures listed { IfOk result (λ n. ElementsListedBehind 0 (elements_for setting self.now.targets) room.old (Some n) room.new) }
        ensures fault { MatchResult result (λ n. image_fault (length room.old) setting self.now.targets ≡ None)
            (λ fault. image_fault (length room.old) setting self.now.targets ≡ Some fault) }
    {
        let mut count: usize = 0;
        let mut has_target = false;
        let mut targets = self.targets();
        while let Some(target) = targets.next_target() {
            if target.setting == setting {
                has_target = true;
                match put(target.elements, count, room) {
                    Some(n) => count = n,
                    None => return Err(ImageFault::TooManyElements),
                }
            }
        }
        if !has_target {
            return Err(ImageFault::NoSuchSetting);
        }
        Ok(count)
    }

    /// Writes the elements of alternate setting `setting` to the front of `room`, sorted by address. Returns their number. Overlapping
    /// elements are listed too, because the session refuses them.
    ///
    /// # Errors
    ///
    /// NoSuchSetting, or TooManyElements if `room` has fewer slots than there are elements.
    pub fn image(&self, setting: u8, room: &mut [Element<'f>]) -> Result<usize, ImageFault>
        ensures size { length room.new ≡ length room.old }
        ensures image { IfOk result (λ n. IsImage (elements_for setting self.now.targets) n room.new) }
        ensures fault { MatchResult result (λ n. image_fault (length room.old) setting self.now.targets ≡ None)
            (λ fault. image_fault (length room.old) setting self.now.targets ≡ Some fault) }
    {
        let count = match self.listed(setting, room) {
            Ok(count) => count,
            Err(fault) => return Err(fault),
        };
        sort(count, room);
        Ok(count)
    }
}
