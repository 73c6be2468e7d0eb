//! The checks that several kinds of sessions share.

ghost use Rattle.std.specs.Prelude.{◌≡◌, ◌<◌, IfErr, IfOk, None, Some, find, length};
ghost use Rattle.dfu_host.specs.Download.{first_install_fault, payload_faults, refuses_download, goal_of_install};
ghost use Rattle.dfu_host.specs.Goals.{goal_of, size_of};
ghost use Rattle.dfu_host.specs.Uploading.{first_upload_fault};

use crate::fault::HostFault;
use crate::goal::Goal;
use crate::target::is_for;
use dfu_suffix::File;
use dfu_wire::{Functional, Ids};

/// Returns the goal of a session that installs a file, and also compares it if `compares` is true. Fails with the first fault that holds.
pub(crate) fn goal_to_install<'f>(
    file: &File<'f>,
    functional: &Functional,
    device: Ids,
    compares: bool,
) -> Result<Goal<'f>, HostFault>
    ensures err { IfErr result (λ fault. first_install_fault compares file.now functional.now device ≡ Some fault) }
    ensures ok { IfOk result (λ goal. first_install_fault compares file.now functional.now device ≡ None) }
    ensures goal { IfOk result (λ goal. (goal_of goal ≡ goal_of_install compares file.now.payload) × (0 < size_of goal)
        × (0 < functional.now.transfer)) }
{
    let payload = payload_for(file, functional, device)?;
    if compares {
        gives_uploads(functional)?;
        return Ok(Goal::Verify(payload));
    }
    if functional.transfer == 0 {
        return Err(HostFault::BadDescriptor);
    }
    Ok(Goal::Load(payload))
}

/// Returns the payload of the file, or the first fault that prevents its install on the device.
fn payload_for<'f>(
    file: &File<'f>,
    functional: &Functional,
    device: Ids,
) -> Result<&'f [u8], HostFault>
    ensures err { IfErr result (λ fault. find (refuses_download file.now functional.now device) payload_faults ≡ Some fault) }
    ensures ok { IfOk result (λ payload. find (refuses_download file.now functional.now device) payload_faults ≡ None) }
    ensures payload { IfOk result (λ payload. (payload.now ≡ file.now.payload) × (0 < length payload.now)) }
{
    let payload = file.payload();
    if payload.is_empty() {
        Err(HostFault::EmptyPayload)
    } else if !is_for(file.ids(), device) {
        Err(HostFault::WrongTarget)
    } else if !functional.can_download {
        Err(HostFault::CannotDownload)
    } else {
        Ok(payload)
    }
}

/// Fails with the first fault that prevents an upload from the device.
pub(crate) fn gives_uploads(functional: &Functional) -> Result<(), HostFault>
    ensures err { IfErr result (λ fault. first_upload_fault functional.now ≡ Some fault) }
    ensures ok { IfOk result (λ nothing. (first_upload_fault functional.now ≡ None) × (0 < functional.now.transfer)) }
{
    if !functional.can_upload {
        Err(HostFault::CannotUpload)
    } else if functional.transfer == 0 {
        Err(HostFault::BadDescriptor)
    } else {
        Ok(())
    }
}
