//! The targets of a file.

ghost use Rattle.std.specs.Prelude.{◌≡◌, [], ◌∷◌, length, MatchOption};
ghost use Rattle.dfu_formats.specs.dfuse.Reading.{targets_at};
ghost use Rattle.dfu_formats.specs.dfuse.Found.{fault_of_result};
ghost use Rattle.dfu_formats.specs.dfuse.Images.{handed_out_target};

use crate::dfuse::elements::{Elements, check_elements, check_end};
use crate::dfuse::fault::FileFault;
use crate::dfuse::headings::take_heading;
use std::marker::Model;

/// A target: the elements for the memory of one alternate setting.
#[derive(Drop)]
pub struct Target<'f> {
    /// The alternate setting, 0 to 255.
    pub setting: u8,
    /// 0 if the target has no name, and any other number if it has one.
    pub named: u32,
    /// The 255 bytes of the name field. The name ends before the first 0.
    pub name: &'f [u8],
    /// The elements of the target, in the order of the file.
    pub elements: Elements<'f>,
}

/// Checks that `bytes` are the encoding of `count` targets, each with the number of elements in its header, and nothing more.
pub(crate) fn check_targets(count: u8, bytes: &[u8]) -> Result<(), FileFault>
    ensures { result ≡ fault_of_result (targets_at count bytes.now) }
{
    let mut rest = bytes;
    for _ in 0..count {
        match take_heading(rest) {
            Err(fault) => return Err(fault),
            Ok(heading) => match check_elements(heading.count, heading.content) {
                Err(fault) => return Err(fault),
                Ok(()) => rest = heading.rest,
            },
        }
    }
    check_end(rest, FileFault::Trailing)
}

/// Iterator over the targets of a file, in its order.
#[derive(Drop)]
pub struct Targets<'f> {
    left: u8,
    rest: &'f [u8],
}

impl<'f> Model for Targets<'f> {
    ghost use Rattle.std.specs.Prelude.{◌≡◌, List, Ok};
    ghost use Rattle.dfu_formats.specs.dfuse.Reading as reading;
    ghost use Rattle.dfu_formats.specs.dfuse.Found.{list_or_empty};

    ghost Value = { List reading.Target };

    ghost view = { λ t. list_or_empty (reading.targets_at t.left t.rest.now) };

    ghost invariant = { λ t. reading.targets_at t.left t.rest.now ≡ Ok (list_or_empty (reading.targets_at t.left t.rest.now)) };
}

impl<'f> Targets<'f> {
    ghost use Rattle.std.specs.Prelude.{Ok};
    ghost use Rattle.dfu_formats.specs.dfuse.Found.{list_or_empty};

    /// Returns an iterator over the next `left` targets of `rest`, which `check_targets` must have accepted.
    pub(crate) fn new(left: u8, rest: &'f [u8]) -> Targets<'f>
        requires { targets_at left rest.now ≡ Ok (list_or_empty (targets_at left rest.now)) }
        ensures { result ≡ list_or_empty (targets_at left rest.now) }
    {
        Targets { left, rest }
    }

    /// Returns the number of targets that are left.
    pub fn len(&self) -> u8
        ensures { result ≡ length self.now }
    {
        self.left
    }

    /// Removes and returns the first target. Returns None if no target is left.
    #[inline(always)]
    pub fn next_target(&mut self) -> Option<Target<'f>>
        ensures { MatchOption result ((self.old ≡ []) × (self.new ≡ [])) (λ t. self.old ≡ handed_out_target t ∷ self.new) }
    {
        if self.left == 0 {
            return None;
        }
        match take_heading(self.rest) {
            Err(_) => None,
            Ok(heading) => {
                self.left -= 1;
                self.rest = heading.rest;
                Some(Target {
                    setting: heading.setting,
                    named: heading.named,
                    name: heading.name,
                    elements: Elements::new(heading.count, heading.content),
                })
            }
        }
    }
}
