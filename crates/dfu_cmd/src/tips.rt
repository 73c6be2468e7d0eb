//! Tips in the parser's message about a mistake.

use std::alloc::{AllocError, Global};

/// Returns the names of the commands that have `option`, or None if no command does.
fn owners(option: &str) -> Option<&'static str> {
    match option {
        "--vid" | "--pid" | "--did" => Some("add and set"),
        "--format" | "--fill" => Some("add"),
        "--trace" | "--file" => Some("run"),
        "--interface" | "--device" | "--dfuse" => Some("judge"),
        "--part" | "--boot" | "--areas" | "--parts" => Some("plan"),
        "--json" => Some("check, show, judge and plan"),
        _ => None,
    }
}

/// If `line`, the first line of a message, reports an unexpected option, returns this option with its `--`. Returns None for any other
/// line.
fn unexpected(line: &str) -> Option<&str> {
    let option = line.strip_prefix("error: unexpected argument '")?;
    let option = option.strip_suffix("' found")?;
    if option.starts_with("--") {
        Some(option)
    } else {
        None
    }
}

/// Appends the tips for an option, which name the commands that have it. If no command has the option, the tips are the parser's own,
/// except the tip to pass the option as a value.
fn push_tips(text: &mut String, option: &str, tips: &str) -> Result<(), AllocError> {
    if let Some(names) = owners(option) {
        text.push_str("\n\n  tip: '")?;
        text.push_str(option)?;
        text.push_str("' is an option of ")?;
        return text.push_str(names);
    }
    let mut is_first = true;
    for tip in tips.lines() {
        if tip.starts_with("  tip: ") && !tip.starts_with("  tip: to pass ") {
            text.push_str(if is_first { "\n\n" } else { "\n" })?;
            text.push_str(tip)?;
            is_first = false;
        }
    }
    Ok(())
}

/// Returns the parser's message `text` with better tips about an unexpected option. They name the commands that have the option. If no
/// command has it, the tip to pass it as a value is left out.
pub(crate) fn advised_message(alloc: Global, text: &str) -> Result<String, AllocError> {
    let Some((line, rest)) = text.split_once('\n') else {
        return String::from_str(alloc, text);
    };
    let Some(option) = unexpected(line) else {
        return String::from_str(alloc, text);
    };
    let Some((tips, usage)) = rest.split_once("\n\nUsage:") else {
        return String::from_str(alloc, text);
    };
    let mut told = String::from_str(alloc, line)?;
    push_tips(&mut told, option, tips)?;
    told.push_str("\n\nUsage:")?;
    told.push_str(usage)?;
    Ok(told)
}
