//! Words of printed lines, and keys of JSON objects.

ghost use Rattle.std.specs.Prelude.{◌≡◌};
ghost use Rattle.dfu_fs.specs.Names.{name_text};

/// A word of a line, a key of an object, or both.
#[derive(Clone, Copy)]
pub(crate) enum Name {
    Allowed,
    Alternate,
    Answer,
    By,
    Configuration,
    Crc,
    Departs,
    Detach,
    Device,
    Dfu,
    Download,
    Events,
    Fault,
    For,
    Functional,
    Habits,
    In,
    Index,
    Interface,
    Kept,
    Kind,
    Length,
    Line,
    Mode,
    Next,
    NotKept,
    Number,
    Ok,
    Payload,
    Poll,
    Product,
    Refused,
    Request,
    Setup,
    Show,
    Single,
    Source,
    State,
    States,
    Status,
    String,
    Suffix,
    Tolerant,
    Transfer,
    Upload,
    Value,
    Vendor,
    Verdict,
    Version,
    Why,
    WillDetach,
}

/// Texts of the names, in the order of the enum.
#[rattlefmt::skip]
static TEXTS: [&str; 51] = [
    "allowed", "alternate", "answer", "by", "configuration", "crc", "departs", "detach", "device", "dfu",
    "download", "events", "fault", "for", "functional", "habits", "in", "index", "interface", "kept", "kind",
    "length", "line", "mode", "next", "not kept", "number", "ok", "payload", "poll", "product", "refused",
    "request", "setup", "show", "single", "source", "state", "states", "status", "string", "suffix", "tolerant",
    "transfer", "upload", "value", "vendor", "verdict", "version", "why", "will-detach",
];

impl Name {
    /// Returns the text of the word or key.
    pub(crate) fn text(self) -> &'static str
        ensures { result.now ≡ name_text self }
    {
        TEXTS[self as usize]
    }
}
