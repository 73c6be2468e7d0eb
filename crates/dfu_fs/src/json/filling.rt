//! Search for the form that fits a line.

ghost use Rattle.std.specs.Prelude.{◌≡◌, [], IfOk, MatchOption, None, Some};
ghost use Rattle.dfu_fs.specs.Objects.{members_of_first_form, members_by_form};

use crate::json::part::LinePart;
use crate::json::taking::take_part;
use std::alloc::{AllocError, Global};

/// Returns the members of `line` by `form`, or None if the line doesn't have this form.
fn fit(alloc: Global, form: &[LinePart], line: &[u8]) -> Result<Option<Vec<u8>>, AllocError>
    ensures { IfOk result (λ r. MatchOption r (members_by_form form.now [] line.now ≡ None)
        (λ out. members_by_form form.now [] line.now ≡ Some out.items)) }
{
    let mut out = Vec::new(alloc);
    let mut rest = line;
    for part in form {
        match take_part(&mut out, *part, rest)? {
            Some(now) => rest = now,
            None => return Ok(None),
        }
    }
    if rest.is_empty() {
        return Ok(Some(out));
    }
    Ok(None)
}

/// Returns the members of `line` by the first form that fits, or None if no form fits.
pub(crate) fn first_fit(
    alloc: Global,
    forms: &[[LinePart; 8]],
    line: &[u8],
) -> Result<Option<Vec<u8>>, AllocError>
    ensures { IfOk result (λ r. MatchOption r (members_of_first_form forms.now line.now ≡ None)
        (λ out. members_of_first_form forms.now line.now ≡ Some out.items)) }
{
    for form in forms {
        match fit(alloc, form, line)? {
            Some(out) => return Ok(Some(out)),
            None => {}
        }
    }
    Ok(None)
}
