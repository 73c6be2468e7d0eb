//! Lookup of OUT: the file to create or to replace, after its symbolic links have been followed.

use dfu_suffix::check;
use std::alloc::{AllocError, Global};
use std::fs::{self, Metadata};
use std::io::{self, ErrorKind};
use std::os::unix::fs::MetadataExt;
use std::rt::Files;

/// Largest number of symbolic links that are followed, as in Linux.
const MAX_LINKS: u32 = 40;

/// Largest number of lookups of OUT while another process replaces it.
const MAX_LOOKS: u32 = 10;

/// Name that isn't a symbolic link, and the file with this name.
#[derive(Drop)]
pub(crate) struct Destination {
    pub name: String,
    /// The regular file, or None if the name doesn't exist.
    pub file: Option<Metadata>,
}

/// Returns the name of file `other` in the folder of file `name`.
pub(crate) fn beside(alloc: Global, name: &str, other: &str) -> Result<String, AllocError> {
    let mut text = String::new(alloc);
    if let Some((folder, _)) = name.rsplit_once('/') {
        text.push_str(folder)?;
        text.push_str("/")?;
    }
    text.push_str(other)?;
    Ok(text)
}

/// Returns the file that the lookup `look` found. Returns None if the name doesn't exist, which isn't an error.
fn found(look: io::Result<Metadata>) -> io::Result<Option<Metadata>> {
    match look {
        Ok(file) => Ok(Some(file)),
        Err(error) => {
            if error.kind() == ErrorKind::NotFound {
                Ok(None)
            } else {
                Err(error)
            }
        }
    }
}

/// Returns true if the lookup `file` found a symbolic link.
fn is_link(file: &Option<Metadata>) -> bool {
    match file {
        Some(file) => file.is_symlink(),
        None => false,
    }
}

/// Returns the name to which the symbolic link `link` points. A relative name is taken relative to the folder of the link.
fn next_name<R: Files + AllocGlobal>(rt: &R, link: &str) -> io::Result<String> {
    let text = fs::read_link(rt, link)?;
    let next = text.as_path().as_str();
    if next.starts_with('/') {
        return Ok(String::from_str(rt.alloc(), next)?);
    }
    Ok(beside(rt.alloc(), link, next)?)
}

/// Follows the symbolic links from `out`, and returns the destination at their end.
///
/// # Errors
///
/// FilesystemLoop if there are too many links, or the error of a lookup.
fn end_of_links<R: Files + AllocGlobal>(rt: &R, out: &str) -> io::Result<Destination> {
    let mut name = String::from_str(rt.alloc(), out)?;
    for _ in 0..=MAX_LINKS {
        let file = found(fs::symlink_metadata(rt, name.as_str()))?;
        if !is_link(&file) {
            return Ok(Destination { name, file });
        }
        name = next_name(rt, name.as_str())?;
    }
    Err(io::Error::from(ErrorKind::FilesystemLoop))
}

/// Returns true if OUT may be `file`: it must be a regular file or not exist.
fn may_be_out(file: &Option<Metadata>) -> bool {
    match file {
        Some(file) => file.is_file(),
        None => true,
    }
}

/// Returns true if both lookups found the same file, or if neither found one.
fn is_same_file(look: &Option<Metadata>, other: &Option<Metadata>) -> bool {
    match (look, other) {
        (None, None) => true,
        (Some(file), Some(again)) => file.dev() == again.dev() && file.ino() == again.ino(),
        _ => false,
    }
}

/// Returns the destination of `out`, at the end of its symbolic links.
///
/// # Errors
///
/// `out` isn't a regular file, its links form a loop, a lookup fails, or another process replaces `out` again and again.
pub(crate) fn place_of<R: Files + AllocGlobal>(rt: &R, out: &str) -> io::Result<Destination> {
    // The system's own lookup comes first, because the system may refuse to follow a link that another user made. The destination must be
    // the file that this lookup found. If it isn't, OUT may have been replaced between the two lookups, so both are repeated.
    for _ in 0..MAX_LOOKS {
        let seen = found(fs::metadata(rt, out))?;
        let place = end_of_links(rt, out)?;
        if !may_be_out(&seen) || !may_be_out(&place.file) {
            let why = "it is no regular file, and leads to none";
            return Err(io::Error::new(ErrorKind::InvalidInput, why));
        }
        if is_same_file(&seen, &place.file) {
            return Ok(place);
        }
    }
    let why = "somebody else replaces it again and again";
    Err(io::Error::new(ErrorKind::InvalidInput, why))
}

/// Returns true if the file at `place` may be replaced: it doesn't exist, it is empty, it is FILE itself, or it is a DFU file, as `dfu add`
/// writes it. Any other file is protected, because the user may have typed the name of an input for OUT.
fn may_be_replaced<R: Files>(rt: &R, file: &str, place: &Destination) -> io::Result<bool> {
    let Some(old) = &place.file else {
        return Ok(true);
    };
    if old.len() == 0 {
        return Ok(true);
    }
    // The name `-` stands for standard input, which has no file to look up.
    if file != "-" && is_same_file(&found(fs::metadata(rt, file))?, &place.file) {
        return Ok(true);
    }
    Ok(check(fs::open(rt, place.name.as_str())?).is_ok())
}

/// Returns the destination of `out`, OUT of `dfu add`, at the end of its symbolic links.
///
/// # Errors
///
/// The errors of `place_of`; AlreadyExists if the file there may not be replaced; or the error of examining that file.
pub(crate) fn place_for_add<R: Files + AllocGlobal>(
    rt: &R,
    file: &str,
    out: &str,
) -> io::Result<Destination> {
    let place = place_of(rt, out)?;
    if may_be_replaced(rt, file, &place)? {
        return Ok(place);
    }
    let why = "it is there, and no DFU file; remove it, or give OUT another name";
    Err(io::Error::new(ErrorKind::AlreadyExists, why))
}
