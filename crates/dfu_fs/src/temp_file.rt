//! Part: a new file in the same folder as the file that it replaces.

ghost use Rattle.std.specs.Prelude.{◌≡◌, ◌*◌, true, false, bit_and, bit_or};

use crate::destination::{Destination, beside, place_for_add, place_of};
use std::alloc::{AllocError, Global};
use std::fs::{self, File, Metadata, OpenFile, OpenOptions, Permissions};
use std::io::{self, ErrorKind};
use std::os::unix::fs::{MetadataExt, OpenOptionsExt, PermissionsExt, fchown};
use std::rt::Files;

/// Largest number of names that are tried for the part.
const MAX_PARTS: u32 = 1000;

/// Open file whose owner can be set.
pub trait Owned {
    /// Sets the owner and the group of the file.
    fn set_owner(&self, user: u32, group: u32) -> io::Result<()>;
}

impl Owned for File {
    fn set_owner(&self, user: u32, group: u32) -> io::Result<()> {
        fchown(self, Some(user), Some(group))
    }
}

/// Part: a new file in the same folder as the file that it replaces.
#[derive(Drop)]
pub(crate) struct TempFile<F> {
    name: String,
    place: Destination,
    pub file: F,
}

/// Returns the permissions of a new file for `place`, before the umask is applied. If the new file replaces another one, only its owner has
/// access until it gets the permissions of the old file.
fn initial_rights(place: &Destination) -> u32 {
    match place.file {
        Some(_) => 0o600,
        None => 0o666,
    }
}

/// Returns the name of the part with this number for file `name`.
fn part_name(alloc: Global, name: &str, number: u32) -> Result<String, AllocError> {
    let mut part = beside(alloc, name, ".dfu-part-")?;
    part.push_str(&number.to_string(alloc)?)?;
    Ok(part)
}

/// Creates a part with the first name from `.dfu-part-0` to `.dfu-part-999` that isn't taken.
fn new_part<R: Files + AllocGlobal>(rt: &R, place: Destination) -> io::Result<TempFile<R::File>> {
    let mut how = OpenOptions::new();
    how.write(true)
        .create_new(true)
        .mode(initial_rights(&place));
    for number in 0..MAX_PARTS {
        let name = part_name(rt.alloc(), &place.name, number)?;
        match how.open(rt, name.as_str()) {
            Ok(file) => return Ok(TempFile { name, place, file }),
            Err(error) => {
                if error.kind() != ErrorKind::AlreadyExists {
                    return Err(error);
                }
            }
        }
    }
    let why = "each name from .dfu-part-0 to .dfu-part-999 is taken";
    Err(io::Error::new(ErrorKind::AlreadyExists, why))
}

/// Returns the permissions of a file that replaces one with `mode`, without setuid, setgid and sticky. If `is_kept` is set, the new file
/// has the owner and group of the old one, so it keeps the permissions. Otherwise its group gets the permissions of all others. The masks
/// 511, 455 and 7 of the clauses are 777, 707 and 7 in octal.
pub fn rights_after(mode: u32, is_kept: bool) -> u32
    ensures kept { is_kept ≡ true → result ≡ bit_and mode 511 }
    ensures given { is_kept ≡ false → result ≡ bit_or (bit_and mode 455) (bit_and mode 7 * 8) }
{
    if is_kept {
        return mode & 0o777;
    }
    let others = mode & 0o007;
    (mode & 0o707) | (others * 8)
}

/// Gives the new file the owner and group of the old one, if the system allows it, and the permissions from `rights_after`.
fn copy_rights<F: OpenFile + Owned>(file: &F, old: &Metadata) -> io::Result<()> {
    let is_kept = file.set_owner(old.uid(), old.gid()).is_ok();
    let rights = rights_after(old.mode(), is_kept);
    file.set_permissions(Permissions::from_mode(rights))
}

/// Removes `part`, if the system allows it.
pub(crate) fn remove<R: Files>(rt: &R, part: &TempFile<R::File>) {
    let _ = fs::remove_file(rt, part.name.as_str());
}

/// Creates the part for OUT. If the part replaces a file, it gets the owner and permissions from `copy_rights` before it has any byte. For
/// `dfu add`, `file` is FILE.
pub(crate) fn begin<R: Files + AllocGlobal>(
    rt: &R,
    file: Option<&str>,
    out: &str,
) -> io::Result<TempFile<R::File>>
where
    R::File: Owned,
{
    let place = match file {
        Some(file) => place_for_add(rt, file, out)?,
        None => place_of(rt, out)?,
    };
    let part = new_part(rt, place)?;
    let ready = match &part.place.file {
        Some(old) => copy_rights(&part.file, old),
        None => Ok(()),
    };
    match ready {
        Ok(()) => Ok(part),
        Err(error) => {
            remove(rt, &part);
            Err(error)
        }
    }
}

/// Flushes the part to the disk, and then gives it the name of the file that it replaces.
pub(crate) fn put<R: Files>(rt: &R, part: &TempFile<R::File>) -> io::Result<()> {
    part.file.sync_all()?;
    fs::rename(rt, part.name.as_str(), part.place.name.as_str())
}
