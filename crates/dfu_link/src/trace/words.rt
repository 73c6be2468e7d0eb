//! Builds a line of a trace from its words.

use dfu_host::{Action, Phase};
use dfu_sim::Fate;
use dfu_slots::{LastWrites, WriteEnd, WriteNote};
use dfu_wire::{Request, Setup, State, Status};
use std::alloc::{AllocError, Global};

/// Returns the name of `request` in the standard (USB DFU 1.1, section 3), or `other`.
fn request_text(request: Request) -> &'static str {
    match request {
        Request::OtherClass | Request::NotDfu => "other",
        _ => request.name(),
    }
}

/// Returns the text before a write: a comma if another write precedes it, and `erased` if the write erases.
fn text_before_write(is_behind: bool, erases: bool) -> &'static str {
    match (is_behind, erases) {
        (false, false) => "",
        (false, true) => "erased ",
        (true, false) => ", ",
        (true, true) => ", erased ",
    }
}

/// Returns the text for the end of a write.
fn end_text(end: WriteEnd) -> &'static str {
    match end {
        WriteEnd::Worked => "",
        WriteEnd::Failed => " failed",
        WriteEnd::Lied => " lied",
    }
}

/// Returns the name of `phase` in a line of the trace.
fn phase_text(phase: Phase) -> &'static str {
    match phase {
        Phase::Find => "Find",
        Phase::FindAgain => "FindAgain",
        Phase::Detach => "Detach",
        Phase::Enter => "Enter",
        Phase::Clear => "Clear",
        Phase::Quit => "Quit",
        Phase::WaitFind(_) => "WaitFind",
        Phase::ResetFind => "ResetFind",
        Phase::Block(_) => "Block",
        Phase::Ask(_) => "Ask",
        Phase::Poll(_) => "Poll",
        Phase::WaitPoll(_, _) => "WaitPoll",
        Phase::Close => "Close",
        Phase::AskLast => "AskLast",
        Phase::Manifest => "Manifest",
        Phase::WaitManifest(_) => "WaitManifest",
        Phase::WaitLast(_) => "WaitLast",
        Phase::Trouble => "Trouble",
        Phase::Fetch(_) => "Fetch",
        Phase::Compare(_) => "Compare",
        Phase::Last(_) => "Last",
        Phase::LastUploaded => "LastUploaded",
        Phase::GiveUp => "GiveUp",
        Phase::Over(_) => "Over",
        Phase::OverUploaded => "OverUploaded",
    }
}

/// Returns the number of a phase's block or part; None if it has none.
fn part_of(phase: Phase) -> Option<u64> {
    match phase {
        Phase::Block(number) => Some(number as u64),
        Phase::Ask(number) => Some(number as u64),
        Phase::Poll(number) => Some(number as u64),
        Phase::WaitPoll(number, _) => Some(number as u64),
        Phase::Fetch(number) => Some(u64::from(number)),
        Phase::Compare(number) => Some(u64::from(number)),
        _ => None,
    }
}

/// Returns the word for `fate` in a script.
fn fate_text(fate: Fate<'_>) -> &'static str {
    match fate {
        Fate::Pass => "pass",
        Fate::LostOut => "lostout",
        Fate::LostBack => "lostback",
        Fate::Twice => "twice",
        Fate::TwiceLostBack => "twicelostback",
        Fate::Slip(_) => "slip",
        Fate::Cut { .. } => "cut",
        Fate::Fail { .. } => "fail",
        Fate::Lie { .. } => "lie",
    }
}

/// Returns the state of a one-byte answer; None if the byte is no state, or the answer has another length.
fn state_in(bytes: &[u8]) -> Option<State> {
    match bytes {
        [byte] => State::from_byte(*byte).ok(),
        _ => None,
    }
}

/// The words of a line of a trace, in one text. Once there is no memory for a word, no more words are added.
#[derive(Drop)]
pub(crate) struct Words {
    text: String,
    alloc: Global,
    is_whole: bool,
}

impl Words {
    /// Makes a text without words.
    pub(crate) fn new(alloc: Global) -> Words {
        Words {
            text: String::new(alloc),
            alloc,
            is_whole: true,
        }
    }

    /// Returns the text of the words, if there was memory for all of them.
    pub(crate) fn into_text(self) -> Option<String> {
        if self.is_whole { Some(self.text) } else { None }
    }

    /// Appends a text, or records that there was no memory for it.
    #[inline(never)]
    pub(crate) fn push(&mut self, text: &str) {
        if self.is_whole {
            self.is_whole = self.text.push_str(text).is_ok();
        }
    }

    /// Appends digits, or records that there was no memory for them.
    fn push_digits(&mut self, digits: Result<String, AllocError>) {
        match digits {
            Ok(digits) => self.push(&digits),
            Err(_) => self.is_whole = false,
        }
    }

    /// Appends a text and then a number.
    #[inline(never)]
    pub(crate) fn push_number(&mut self, text: &str, number: u64) {
        self.push(text);
        self.push_digits(number.to_string(self.alloc));
    }

    /// Appends a phase, with the number of its block or part, if it has one.
    pub(crate) fn push_phase(&mut self, phase: Phase) {
        self.push(phase_text(phase));
        if let Some(number) = part_of(phase) {
            self.push_number(" ", number);
        }
    }

    /// Appends a request, with wValue and wLength.
    fn push_request(&mut self, setup: &Setup) {
        self.push(request_text(setup.request()));
        self.push_number(" ", u64::from(setup.value));
        self.push_number(" ", u64::from(setup.length));
    }

    /// Appends an action of the host: a request, a wait with its milliseconds, a reset, or `-` if the host is done.
    pub(crate) fn push_action(&mut self, action: Action<'_>) {
        match action {
            Action::Send { setup, .. } => self.push_request(&Setup::decode(&setup)),
            Action::Wait(ms) => self.push_number("wait ", u64::from(ms)),
            Action::Reset => self.push("reset"),
            Action::Done(_) => self.push("-"),
        }
    }

    /// Appends the number of bytes in `bytes`.
    pub(crate) fn push_count(&mut self, bytes: &[u8]) {
        self.push_number("", bytes.len() as u64);
        self.push(" bytes");
    }

    /// Appends a status from its bytes, or the number of bytes if they are no status.
    pub(crate) fn push_status(&mut self, bytes: &[u8]) {
        let Ok(status) = Status::decode(bytes) else {
            self.push_count(bytes);
            return;
        };
        self.push(status.code().name());
        self.push_number(" ", u64::from(status.poll_ms()));
        self.push(" ");
        self.push(status.state().name());
    }

    /// Appends a state from its byte, or the number of bytes if they are no state.
    pub(crate) fn push_state(&mut self, bytes: &[u8]) {
        match state_in(bytes) {
            Some(state) => self.push(state.name()),
            None => self.push_count(bytes),
        }
    }

    /// Appends bytes as hexadecimal digits, or `-` for none.
    fn push_hex(&mut self, bytes: &[u8]) {
        if bytes.is_empty() {
            self.push("-");
            return;
        }
        self.push_digits(hex::encode(self.alloc, bytes));
    }

    /// Appends a harmed write: the number of successful writes before it, and the tear.
    fn push_harm(&mut self, writes: u32, tear: &[u8]) {
        self.push_number(" ", u64::from(writes));
        self.push(" ");
        self.push_hex(tear);
    }

    /// Appends a fate as it is written in a script.
    pub(crate) fn push_fate(&mut self, fate: Fate<'_>) {
        self.push(fate_text(fate));
        match fate {
            Fate::Slip(ms) => self.push_number(" ", u64::from(ms)),
            Fate::Cut { writes, tear } => self.push_harm(writes, tear),
            Fate::Fail { writes, tear } => self.push_harm(writes, tear),
            Fate::Lie { writes, tear } => self.push_harm(writes, tear),
            Fate::Pass | Fate::LostOut | Fate::LostBack | Fate::Twice | Fate::TwiceLostBack => {}
        }
    }

    /// Appends a write. `is_behind` is true if another write precedes it.
    fn push_write(&mut self, is_behind: bool, note: WriteNote) {
        self.push_number(
            text_before_write(is_behind, note.erases),
            u64::from(note.len),
        );
        self.push_number(" at ", u64::from(note.at));
        self.push(end_text(note.end));
    }

    /// Appends the writes of a medium after its first `since` writes, or `-` for none. The medium notes only its last 16 writes. A leading
    /// comma marks that earlier ones are missing.
    pub(crate) fn push_writes(&mut self, noted: &LastWrites, since: u64) {
        let made = noted.count.saturating_sub(since);
        if made == 0 {
            self.push("-");
            return;
        }
        let kept = noted.notes.len() as u64;
        let first = kept.saturating_sub(made) as usize;
        let mut is_behind = made > kept;
        for i in first..noted.notes.len() {
            self.push_write(is_behind, noted.notes[i]);
            is_behind = true;
        }
    }
}
