//! Parsed command lines.

/// Subcommand with the texts of its arguments from the command line, or their defaults.
#[derive(Drop)]
pub enum Subcommand {
    /// Check each file, or standard input for the name `-`.
    Check {
        /// Names of the FILEs, at least one.
        files: Vec<String>,
        /// True if each line is printed as a JSON object (`--json`).
        json: bool,
    },
    /// Write FILE with a suffix to OUT.
    Add {
        /// Name of FILE.
        file: String,
        /// Name of OUT.
        to: String,
        /// idVendor as four hexadecimal digits.
        vid: String,
        /// idProduct as four hexadecimal digits.
        pid: String,
        /// bcdDevice as four hexadecimal digits.
        did: String,
        /// Format of FILE, or None without `--format`.
        format: Option<String>,
        /// Byte that fills gaps, as two hexadecimal digits, or None without `--fill`.
        fill: Option<String>,
    },
    /// Write the payload of FILE to OUT.
    Extract {
        /// Name of FILE.
        file: String,
        /// Name of OUT.
        to: String,
    },
    /// Change the identifiers of a file. An identifier without an option stays unchanged.
    Change {
        /// Name of FILE.
        file: String,
        /// idVendor as four hexadecimal digits, or None to keep it.
        vid: Option<String>,
        /// idProduct as four hexadecimal digits, or None to keep it.
        pid: Option<String>,
        /// bcdDevice as four hexadecimal digits, or None to keep it.
        did: Option<String>,
    },
    /// Decode bytes and print their fields.
    Show {
        /// KIND: `functional`, `status`, `state`, `setup` or `configuration`.
        kind: String,
        /// The HEX arguments, at least one, which contain two hexadecimal digits for each byte.
        hex: Vec<String>,
        /// True if each line is printed as a JSON object (`--json`).
        json: bool,
    },
    /// Run the script in a file, or on standard input if `script` is `-`.
    Run {
        /// Name of SCRIPT.
        script: String,
        /// True if each action is printed (`--trace`).
        trace: bool,
        /// File whose bytes the script uses as FILE, or standard input if it is `-`; None without `--file`.
        file: Option<String>,
    },
    /// Judge the log or capture in each file, or on standard input for the name `-`.
    Judge {
        /// Names of the FILEs, at least one.
        files: Vec<String>,
        /// Number of the DFU interface, in decimal digits.
        interface: String,
        /// Device to judge in a capture: BUS.DEVICE, or `only`.
        device: String,
        /// True if the device is judged by the rules of DfuSe (`--dfuse`).
        dfuse: bool,
        /// True if each line is printed as a JSON object (`--json`).
        json: bool,
    },
    /// Place gates, headers and data on the flash of a part.
    Plan {
        /// Name of the part.
        part: String,
        /// Size of the bootloader, such as 32k.
        boot: String,
        /// Number of areas of data, 2 or 3.
        areas: String,
        /// File with a table of parts, or standard input if it is `-`; None without `--parts`.
        parts: Option<String>,
        /// True if each line is printed as a JSON object (`--json`).
        json: bool,
    },
}

/// A subcommand with the options that every subcommand has.
#[derive(Drop)]
pub struct ParsedArgs {
    /// Subcommand to perform.
    pub subcommand: Subcommand,
    /// True if the reason of a refusal must be printed (`--explain`).
    pub explain: bool,
}

/// Reason why a command line has no subcommand that can be performed.
#[derive(Drop)]
pub enum ArgsFault {
    /// The parser refused the command line, or the command line requests the help text or the version. The error contains the parser's text
    /// and its exit status.
    Words(clap::Error),
    /// An allocation failed.
    NoMemory,
}
