//! Advice for users of dfu-suffix and dfu-prefix, who may type the arguments of those programs.

use dfu_output::reason_line;
use std::alloc::Global;

const CHECK: &str = "type dfu check FILE";

const ADD: &str = "type dfu add FILE OUT --vid VID --pid PID --did DID";

const EXTRACT: &str = "type dfu extract FILE OUT";

const PREFIX: &str = "a prefix is neither made nor read here; dfu-prefix does both";

/// An argument of another program, and the advice for it.
struct Foreign(&'static str, &'static str);

static FOREIGN: [Foreign; 19] = [
    Foreign("-c", CHECK),
    Foreign("--check", CHECK),
    Foreign("-a", ADD),
    Foreign("--add", ADD),
    Foreign("-D", EXTRACT),
    Foreign("--delete", EXTRACT),
    Foreign("delete", EXTRACT),
    Foreign("remove", EXTRACT),
    Foreign("strip", EXTRACT),
    Foreign("-s", PREFIX),
    Foreign("--stellaris-address", PREFIX),
    Foreign("-T", PREFIX),
    Foreign("--stellaris", PREFIX),
    Foreign("-L", PREFIX),
    Foreign("--lpc-prefix", PREFIX),
    Foreign("prefix", PREFIX),
    Foreign("dfu-prefix", PREFIX),
    Foreign("suffix", ADD),
    Foreign("dfu-suffix", ADD),
];

/// Options of dfu-suffix that take a value.
static VALUED: [&str; 8] = ["-v", "--vid", "-p", "--pid", "-d", "--did", "-S", "--spec"];

/// Returns the advice for `word` if it is an argument of another program, and None otherwise.
fn advice_on_word(word: &str) -> Option<&'static str> {
    for Foreign(name, typed) in &FOREIGN {
        if *name == word {
            return Some(*typed);
        }
    }
    None
}

/// Returns true if `word` is an option of dfu-suffix that takes a value.
fn option_takes_value(word: &str) -> bool {
    for name in &VALUED {
        if *name == word {
            return true;
        }
    }
    false
}

/// Returns a line of advice if an argument of another program follows the program's name. Options of dfu-suffix and their values may
/// precede this argument. Returns None for other command lines, or if memory runs out.
pub(crate) fn foreign_reason(alloc: Global, words: &[String]) -> Option<String> {
    let mut is_value = false;
    for word in words.get(1..)? {
        let word = word.as_str();
        if is_value {
            is_value = false;
        } else if let Some(typed) = advice_on_word(word) {
            return reason_line(alloc, "", word, typed).ok();
        } else if option_takes_value(word) {
            is_value = true;
        } else {
            return None;
        }
    }
    None
}
