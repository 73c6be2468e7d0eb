//! Laws of the wire formats. Each law is the proved contract of a function with an empty body, which isn't meant to be called.

ghost use Rattle.dfu_wire.specs.Functional.{IsFunctional, FirstFunctionalFault};
ghost use Rattle.dfu_wire.specs.OneRequest.{OneRequest};
ghost use Rattle.dfu_wire.specs.OneValue.{OneValue, NoFault};
ghost use Rattle.dfu_wire.specs.Setup.{IsSetup};
ghost use Rattle.dfu_wire.specs.Status.{StatusFields, IsStatus, FirstStatusFault};
ghost use Rattle.dfu_wire.specs.declared.fault.WireFault.{WireFault};
ghost use Rattle.dfu_wire.specs.declared.functionals.Functional.{Functional};
ghost use Rattle.dfu_wire.specs.declared.setups.Setup.{Setup};

/// Bytes encode at most one functional descriptor. Bytes that encode one have no fault, and all other bytes have at most one first fault.
pub fn one_functional()
    ensures one { OneValue Functional IsFunctional }
    ensures no_fault { NoFault Functional IsFunctional FirstFunctionalFault }
    ensures one_fault { OneValue WireFault FirstFunctionalFault }
{}

/// Bytes encode at most one setup, and a setup encodes at most one request.
pub fn one_setup()
    ensures one { OneValue Setup IsSetup }
    ensures request { OneRequest }
{}

/// Bytes encode at most one status. Bytes that encode one have no fault, and all other bytes have at most one first fault.
pub fn one_status()
    ensures one { OneValue StatusFields IsStatus }
    ensures no_fault { NoFault StatusFields IsStatus FirstStatusFault }
    ensures one_fault { OneValue WireFault FirstStatusFault }
{}
