//! Checks of a plan. A session refuses a plan that fails one of them.

ghost use Rattle.std.specs.Prelude.{◌≡◌, ◌↔◌, IsTrue, IfErr, OnOk};
ghost use Rattle.dfu_formats.specs.dfuse.Images.{ascends_from};
ghost use Rattle.dfuse_host.specs.Refusing.{has_empty, is_empty, apart_from, PlanGrants, wanted_access, IsSoundPlan, FirstPlanFault};

use crate::fault::PlanFault;
use crate::image::end_of;
use crate::plan::Plan;
use dfu_formats::dfuse::Element;
use dfu_formats::memory::Access;

/// Returns true if `image` has no element, or if one of its elements has no bytes.
#[tactic(auto, using(std::proofs::lemmas::Bool::Decides::nat_tests))]
fn is_empty(image: &[Element<'_>]) -> bool
    ensures { result ≡ is_empty image.now }
{
    image.len() == 0 || has_empty(image)
}

/// Returns true if an element of `image` has no bytes.
#[tactic(auto, using(std::proofs::lemmas::Bool::Decides::nat_tests))]
fn has_empty(image: &[Element<'_>]) -> bool
    ensures { result ≡ has_empty image.now }
{
    for element in image {
        if element.bytes.len() == 0 {
            return true;
        }
    }
    false
}

/// Returns true if no element of `image` begins before the previous one begins.
#[tactic(auto, using(std::proofs::lemmas::Bool::Decides::nat_tests))]
fn ascends(image: &[Element<'_>]) -> bool
    ensures { result ≡ ascends_from 0 image.now }
{
    let mut start = 0;
    for element in image {
        if element.address < start {
            return false;
        }
        start = element.address;
    }
    true
}

/// Returns true if no element of `image` begins before the previous one ends.
#[tactic(auto, using(std::proofs::lemmas::Bool::Decides::nat_tests))]
fn are_apart(image: &[Element<'_>]) -> bool
    ensures { result ≡ apart_from 0 image.now }
{
    let mut end = 0;
    for element in image {
        if (element.address as u64) < end {
            return false;
        }
        end = end_of(element);
    }
    true
}

impl Plan<'_> {
    /// Returns true if each page of the image grants the access `wanted`.
    fn grants(&self, wanted: Access) -> bool
        ensures { IsTrue result ↔ PlanGrants self.now wanted }
    {
        for element in self.image {
            if !self
                .map
                .grants(wanted, element.address as u64, end_of(element))
            {
                return false;
            }
        }
        true
    }

    /// Returns the plan's first fault as an error, in the order of `PlanFault`.
    pub(crate) fn check(&self) -> Result<(), PlanFault>
        ensures sound { OnOk result (IsSoundPlan self.now) }
        ensures fault { IfErr result (FirstPlanFault self.now) }
    {
        let wants = |is_readable: bool, is_erasable: bool, is_writable: bool| Access {
            is_readable,
            is_erasable,
            is_writable,
        };
        if self.transfer == 0 {
            return Err(PlanFault::NoTransferSize);
        }
        if is_empty(self.image) {
            return Err(PlanFault::EmptyImage);
        }
        if !ascends(self.image) {
            return Err(PlanFault::NotInOrder);
        }
        if !are_apart(self.image) {
            return Err(PlanFault::Overlapping);
        }
        if !self.grants(wants(false, false, false)) {
            return Err(PlanFault::OutsideTheMap);
        }
        if !self.grants(wants(false, false, true)) {
            return Err(PlanFault::NotWritable);
        }
        if !self.grants(wants(false, true, false)) {
            return Err(PlanFault::NotErasable);
        }
        if !self.grants(wants(true, false, false)) {
            return Err(PlanFault::NotReadable);
        }
        Ok(())
    }
}
