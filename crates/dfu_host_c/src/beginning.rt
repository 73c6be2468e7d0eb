//! The calls that begin a session.

ghost use Rattle.std.specs.Prelude.{◌≡◌, ◌⊎◌, ◌↔◌, Err, IfErr, IfOk, List, Some, pos, ℕ};
ghost use Rattle.dfu_wire.specs.Functional.{IsFunctional};
ghost use Rattle.dfu_host.specs.Download.{first_download_fault, first_install_fault, first_verify_fault, goal_of_install};
ghost use Rattle.dfu_host.specs.Host.{HostState, host_for_goal};
ghost use Rattle.dfu_host.specs.InParts.{host_of};
ghost use Rattle.dfu_host.specs.Phases.{FetchGoal, LoadGoal, VerifyGoal};
ghost use Rattle.dfu_host.specs.Uploading.{first_upload_fault};
ghost use Rattle.dfu_host.specs.declared.fault.HostFault.{HostFault};
ghost use Rattle.dfu_host_core.specs.BeginCalls.{BeginResult, BeginUploadResult, IsInitialRecord, IsContent};
ghost use Rattle.dfu_host_c.specs.Refusing.{HostRefuses, IsNoDescriptor, FileOrDescriptorIsFaulty, HostRefusesUpload};
ghost use Rattle.dfu_host_core.specs.Sessions.{limits_of};
ghost use Rattle.dfu_host_c.specs.Ids.{ids_of};

use crate::file::file_in;
use crate::holding::record_of;
use crate::ids::DfuIds;
use crate::refusals::HostRefusal;
use dfu_host::{HostFault, Limits, Session};
use dfu_host_core::DfuSession;
use dfu_suffix::File;
use dfu_wire::{Functional, Ids};

/// A file and a descriptor that were read without a fault.
#[derive(Drop)]
struct Wanted<'f> {
    file: File<'f>,
    functional: Functional,
}

/// Reads a file and a descriptor. Fails with the number of the file's fault, or, if the file has no fault, with the number of the
/// descriptor's fault.
fn read_both<'f>(file: &'f [u8], descriptor: &[u8]) -> Result<Wanted<'f>, i32>
    ensures file { IfOk result (λ w. IsContent w.file file.now) }
    ensures functional { IfOk result (λ w. IsFunctional w.functional descriptor.now) }
    ensures err { IfErr result (λ n. FileOrDescriptorIsFaulty file.now descriptor.now n) }
{
    let file = match file_in(file) {
        Ok(file) => file,
        Err(fault) => return Err(HostRefusal::File(fault).number()),
    };
    match Functional::decode(descriptor) {
        Ok(functional) => Ok(Wanted { file, functional }),
        Err(fault) => Err(HostRefusal::Wire(fault).number()),
    }
}

/// Writes the record of a new session, and returns 0.
fn start(session: &mut DfuSession, host: &Session<'_>) -> i32
    ensures number { result ≡ pos 0 }
    ensures begun { (start : HostState) → ((memory : List ℕ) → host_of memory host.now ≡ start) → IsInitialRecord session.new start }
{
    *session = record_of(host, 0);
    0
}

impl<'f> Wanted<'f> {
    ghost use Rattle.dfu_host.specs.declared.fault.HostFault.{HostFault};

    /// Creates a session that installs the file, and also reads it back and compares it if `compares` is true.
    fn begin(&self, device: Ids, limits: Limits, compares: bool) -> Result<Session<'f>, HostFault>
        ensures refused { (fault : HostFault)
            → (result ≡ Err fault) ↔ (first_install_fault compares self.now.file self.now.functional device ≡ Some fault) }
        ensures started { IfOk result (λ s. (memory : List ℕ)
            → host_of memory s ≡ host_for_goal self.now.functional (goal_of_install compares self.now.file.payload) limits) }
    {
        if compares {
            Session::download_verified(&self.file, &self.functional, device, limits)
        } else {
            Session::download(&self.file, &self.functional, device, limits)
        }
    }
}

/// Begins a session that installs a file, and also reads it back and compares it if `compares` is true. Returns 0 or the number of a
/// refusal.
fn install(
    session: &mut DfuSession,
    file: &[u8],
    descriptor: &[u8],
    device: Ids,
    limits: Limits,
    compares: bool,
) -> i32
    ensures outcome { BeginResult (goal_of_install compares) (first_install_fault compares) file.now descriptor.now device limits
        result session.new
        ⊎ (FileOrDescriptorIsFaulty file.now descriptor.now result × (session.new ≡ session.old))
        ⊎ (HostRefuses (first_install_fault compares) file.now descriptor.now device result × (session.new ≡ session.old)) }
{
    let wanted = match read_both(file, descriptor) {
        Ok(wanted) => wanted,
        Err(refusal) => return refusal,
    };
    match wanted.begin(device, limits, compares) {
        Ok(host) => start(session, &host),
        Err(fault) => HostRefusal::Host(fault).number(),
    }
}

/// Begins a download of `file`, and writes the session to `session`. Returns 0 or the number of a refusal.
#[unsafe(no_mangle)]
pub extern "C" fn dfu_host_download(
    session: &mut DfuSession,
    file: &[u8],
    descriptor: &[u8],
    device: &DfuIds,
    actions: u32,
    restarts: u16,
) -> i32
    ensures outcome { BeginResult LoadGoal first_download_fault file.now descriptor.now (ids_of device.now)
        (limits_of actions restarts) result session.new
        ⊎ (FileOrDescriptorIsFaulty file.now descriptor.now result × (session.new ≡ session.old))
        ⊎ (HostRefuses first_download_fault file.now descriptor.now (ids_of device.now) result × (session.new ≡ session.old)) }
{
    let limits = Limits { actions, restarts };
    install(session, file, descriptor, device.ids(), limits, false)
}

/// Begins a verified download of `file`, and writes the session to `session`. Returns 0 or the number of a refusal.
#[unsafe(no_mangle)]
pub extern "C" fn dfu_host_verified(
    session: &mut DfuSession,
    file: &[u8],
    descriptor: &[u8],
    device: &DfuIds,
    actions: u32,
    restarts: u16,
) -> i32
    ensures outcome { BeginResult VerifyGoal first_verify_fault file.now descriptor.now (ids_of device.now)
        (limits_of actions restarts) result session.new
        ⊎ (FileOrDescriptorIsFaulty file.now descriptor.now result × (session.new ≡ session.old))
        ⊎ (HostRefuses first_verify_fault file.now descriptor.now (ids_of device.now) result × (session.new ≡ session.old)) }
{
    let limits = Limits { actions, restarts };
    install(session, file, descriptor, device.ids(), limits, true)
}

/// Begins an upload, and writes the session to `session`. Returns 0 or the number of a refusal.
#[unsafe(no_mangle)]
pub extern "C" fn dfu_host_upload(
    session: &mut DfuSession,
    descriptor: &[u8],
    actions: u32,
    restarts: u16,
) -> i32
    ensures outcome { BeginUploadResult FetchGoal first_upload_fault descriptor.now (limits_of actions restarts) result session.new
        ⊎ (IsNoDescriptor descriptor.now result × (session.new ≡ session.old))
        ⊎ (HostRefusesUpload first_upload_fault descriptor.now result × (session.new ≡ session.old)) }
{
    let functional = match Functional::decode(descriptor) {
        Ok(functional) => functional,
        Err(fault) => return HostRefusal::Wire(fault).number(),
    };
    let limits = Limits { actions, restarts };
    match Session::upload(&functional, limits) {
        Ok(host) => start(session, &host),
        Err(fault) => HostRefusal::Host(fault).number(),
    }
}
