//! Tables of the commands, with a row for each argument.

use crate::help;

/// Argument of a command: its id, which is also the name of an option, its kind, and its text in `--help`.
#[derive(Clone, Copy)]
pub(crate) struct Row<'a>(pub(crate) &'a str, pub(crate) Kind<'a>, pub(crate) &'a str);

/// Kind of an argument: positional, option or flag.
#[derive(Clone, Copy)]
pub(crate) enum Kind<'a> {
    /// A required positional argument, with its name in `--help`.
    Needed(&'a str),
    /// A required positional argument that may be repeated, with its name in `--help`.
    Repeated(&'a str),
    /// An optional positional argument that may be repeated, with its name in `--help` and its default.
    Optional(&'a str, &'a str),
    /// An option with a value and a default.
    Option(&'a str),
    /// An option with a value and without a default.
    Unset,
    /// A required option with a value.
    Wanted,
    /// A flag, which is off unless it is given.
    Flag,
}

/// A command: its name, the texts that `--help` prints before and after its arguments, and its arguments.
#[derive(Clone, Copy)]
pub(crate) struct ListedCommand<'a> {
    pub(crate) name: &'a str,
    pub(crate) about: &'a str,
    pub(crate) example: &'a str,
    pub(crate) rows: &'a [Row<'a>],
}

/// Row of the flag `--explain`, which all commands accept.
const EXPLAIN: Row<'static> = Row("explain", Kind::Flag, help::EXPLAIN);

/// The command `dfu` without its subcommands.
pub(crate) static DFU: ListedCommand<'static> = ListedCommand {
    name: "dfu",
    about: help::DFU,
    example: help::DFU_EXAMPLE,
    rows: &[EXPLAIN],
};

/// The subcommands.
pub(crate) static COMMANDS: [ListedCommand<'static>; 8] = [
    ListedCommand {
        name: "check",
        about: help::CHECK,
        example: help::CHECK_EXAMPLE,
        rows: &[
            Row("file", Kind::Repeated("FILE"), help::CHECK_FILE),
            Row("json", Kind::Flag, help::JSON),
            EXPLAIN,
        ],
    },
    ListedCommand {
        name: "add",
        about: help::ADD,
        example: help::ADD_EXAMPLE,
        rows: &[
            Row("file", Kind::Needed("FILE"), help::ADD_FILE),
            Row("to", Kind::Needed("OUT"), help::ADD_OUT),
            Row("vid", Kind::Option("ffff"), help::ADD_VID),
            Row("pid", Kind::Option("ffff"), help::ADD_PID),
            Row("did", Kind::Option("ffff"), help::ADD_DID),
            Row("format", Kind::Unset, help::ADD_FORMAT),
            Row("fill", Kind::Unset, help::ADD_FILL),
            EXPLAIN,
        ],
    },
    ListedCommand {
        name: "extract",
        about: help::EXTRACT,
        example: help::EXTRACT_EXAMPLE,
        rows: &[
            Row("file", Kind::Needed("FILE"), help::CHECK_FILE),
            Row("to", Kind::Needed("OUT"), help::ADD_OUT),
            EXPLAIN,
        ],
    },
    ListedCommand {
        name: "set",
        about: help::SET,
        example: help::SET_EXAMPLE,
        rows: &[
            Row("file", Kind::Needed("FILE"), help::SET_FILE),
            Row("vid", Kind::Unset, help::ADD_VID),
            Row("pid", Kind::Unset, help::ADD_PID),
            Row("did", Kind::Unset, help::ADD_DID),
            EXPLAIN,
        ],
    },
    ListedCommand {
        name: "show",
        about: help::SHOW,
        example: help::SHOW_EXAMPLE,
        rows: &[
            Row("kind", Kind::Needed("KIND"), help::SHOW_KIND),
            Row("hex", Kind::Repeated("HEX"), help::SHOW_HEX),
            Row("json", Kind::Flag, help::JSON),
            EXPLAIN,
        ],
    },
    ListedCommand {
        name: "run",
        about: help::RUN,
        example: help::RUN_EXAMPLE,
        rows: &[
            Row("script", Kind::Needed("SCRIPT"), help::RUN_SCRIPT),
            Row("trace", Kind::Flag, help::RUN_TRACE),
            Row("file", Kind::Unset, help::RUN_FILE),
            EXPLAIN,
        ],
    },
    ListedCommand {
        name: "judge",
        about: help::JUDGE,
        example: help::JUDGE_EXAMPLE,
        rows: &[
            Row("file", Kind::Optional("FILE", "-"), help::JUDGE_FILE),
            Row("interface", Kind::Option("0"), help::JUDGE_INTERFACE),
            Row("device", Kind::Option("only"), help::JUDGE_DEVICE),
            Row("dfuse", Kind::Flag, help::JUDGE_DFUSE),
            Row("json", Kind::Flag, help::JSON),
            EXPLAIN,
        ],
    },
    ListedCommand {
        name: "plan",
        about: help::PLAN,
        example: help::PLAN_EXAMPLE,
        rows: &[
            Row("part", Kind::Wanted, help::PLAN_PART),
            Row("boot", Kind::Wanted, help::PLAN_BOOT),
            Row("areas", Kind::Option("2"), help::PLAN_AREAS),
            Row("parts", Kind::Unset, help::PLAN_PARTS),
            Row("json", Kind::Flag, help::JSON),
            EXPLAIN,
        ],
    },
];
