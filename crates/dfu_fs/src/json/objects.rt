//! JSON object of a printed line.

ghost use Rattle.std.specs.Prelude.{◌≡◌, ◌++◌, IfOk, OnOk};
ghost use Rattle.dfu_fs.specs.Objects.{file_member, name_in, members_of_first_form, json_object, members_or_text};
ghost use Rattle.dfu_fs.specs.declared.json.forms.TheConstants.{FORMS};

use crate::json::filling::first_fit;
use crate::json::forms::FORMS;
use crate::json::quoting::push_quoted;
use std::alloc::{AllocError, Global};

/// Adds the member `file` with the name of the file to `out`, if there is a file.
fn push_file(out: &mut Vec<u8>, file: Option<&str>) -> Result<(), AllocError>
    ensures { OnOk result (out.new.items ≡ out.old.items ++ file_member (name_in file.entry)) }
{
    let Some(file) = file else {
        return Ok(());
    };
    push_quoted(out, b"file")?;
    out.extend_from_slice(b":")?;
    push_quoted(out, file.as_bytes())?;
    out.extend_from_slice(b",")
}

/// Adds the members of `line` to `out`.
fn push_members(alloc: Global, out: &mut Vec<u8>, line: &[u8]) -> Result<(), AllocError>
    ensures { OnOk result (out.new.items ≡ out.old.items ++ members_or_text (members_of_first_form FORMS line.now) line.now) }
{
    match first_fit(alloc, &FORMS, line)? {
        Some(members) => out.extend_from_slice(&members),
        None => {
            push_quoted(out, b"line")?;
            out.extend_from_slice(b":")?;
            push_quoted(out, line)
        }
    }
}

/// Returns the JSON object of a printed line, without a line end: `{"file":FILE,MEMBERS}`, or `{MEMBERS}` if there is no file. The members
/// are those of the first form that fits the line. If no form fits, the single member is `"line":LINE` with the text of the line.
///
/// # Errors
///
/// AllocError if there is no memory for the object.
#[tactic(auto, unfolding(crate::specs::Objects::json_object))]
pub fn object(alloc: Global, file: Option<&str>, line: &[u8]) -> Result<Vec<u8>, AllocError>
    ensures { IfOk result (λ out. out.items ≡ json_object (name_in file.entry) line.now) }
{
    let mut out = Vec::new(alloc);
    out.extend_from_slice(b"{")?;
    push_file(&mut out, file)?;
    push_members(alloc, &mut out, line)?;
    out.extend_from_slice(b"}")?;
    Ok(out)
}
