//! Candidates: for each state, the devices that may be in it, as bits of words.

ghost use Rattle.std.specs.Prelude.{◌≡◌, ◌<◌, ◌≤◌, ℕ, ◌||◌, ◌&&◌, slice_index, length, ◌==◌, List, [], false, true, slice_index_or};
ghost use Rattle.std.specs.Int.{bit_at};
ghost use Rattle.std.specs.List.{list_any};
ghost use Rattle.dfu_conformance.specs.Candidates.{applies_to, holds_device, reading_bit, is_held_at};
ghost use Rattle.dfu_conformance.specs.inside.Stepped.{CoversPlaces, row_leads, drift_leads, is_held_after_event, has_candidate, is_held_anywhere, smaller_set_of_readings, least_set_below};
ghost use Rattle.dfu_conformance.specs.RowMatches.{place_number, may_stay_at_event};
ghost use Rattle.dfu_conformance.specs.declared.marks.TheConstants.{MARKS};

use crate::drifts::DRIFTS;
use crate::event::{may_stay, row_fits_event};
use crate::habits::HABITS;
use crate::marks::MARKS;
use crate::standard::STANDARD;
use crate::{Drift, LogEvent, Reading, Row, StandardState, When};

/// A set of devices. Bit r of word a is 1 if the set contains the device with bmAttributes a and the set of habits (readings) r.
pub(crate) type Devices = [u64; 16];

/// Returns the sets of habits, as bits, with which a row with `when` applies to a device with bmAttributes `attributes`, 0 to 15.
fn word(when: When, attributes: usize) -> u64
    ensures { (r : ℕ) → r < 64 → (bit_at result r == 1) ≡ applies_to when attributes r }
{
    match when {
        When::Always => all_if(true),
        When::CanDownload => all_if(attributes % 2 == 1),
        When::CanUpload => all_if(attributes / 2 % 2 == 1),
        When::Tolerant => all_if(attributes / 4 % 2 == 1),
        When::NotTolerant => all_if(attributes / 4 % 2 == 0),
        When::WillDetach => all_if(attributes / 8 % 2 == 1),
        When::By(reading) => readings_with(reading),
    }
}

/// Returns the word of all 64 sets of habits if `yes`, and the word of no sets otherwise.
fn all_if(yes: bool) -> u64
    ensures { (r : ℕ) → r < 64 → (bit_at result r == 1) ≡ yes }
{
    if yes { u64::MAX } else { 0 }
}

/// For each habit, by its index, the sets of habits that contain it.
const SETS_WITH: [u64; 6] = [
    0xaaaa_aaaa_aaaa_aaaa,
    0xcccc_cccc_cccc_cccc,
    0xf0f0_f0f0_f0f0_f0f0,
    0xff00_ff00_ff00_ff00,
    0xffff_0000_ffff_0000,
    0xffff_ffff_0000_0000,
];

/// Returns the index of `reading` in the list of all six habits, 0 to 5.
fn number_of(reading: Reading) -> usize
    ensures reading_bit { result ≡ reading_bit reading }
    ensures below { result < 6 }
{
    reading as usize
}

/// Returns the sets of habits that contain `reading`.
#[tactic(auto, using(crate::proofs::Words::word_of_reading_has_bit))]
fn readings_with(reading: Reading) -> u64
    ensures { (r : ℕ) → r < 64 → (bit_at result r == 1) ≡ (bit_at r (reading_bit reading) == 1) }
{
    SETS_WITH[number_of(reading)]
}

/// Returns the devices of `to`, and those devices of `from` to which a row with `when` applies.
fn join(to: &Devices, from: &Devices, when: When) -> Devices
    ensures size { length result ≡ 16 }
    ensures all { (a r : ℕ) → a < 16 → r < 64 →
        holds_device result a r ≡ (holds_device to.now a r || (holds_device from.now a r && applies_to when a r)) }
{
    let mut after = *to;
    for a in 0..16 {
        after[a] |= from[a] & word(when, a);
    }
    after
}

/// Returns the sets of habits of all devices in `devices`, for any bmAttributes.
fn readings_of(devices: &Devices) -> u64
    ensures { (r : ℕ) → r < 64 → (bit_at result r == 1) ≡ has_candidate devices.now r }
{
    let mut all = 0;
    for a in 0..16 {
        all |= devices[a];
    }
    all
}

/// Returns true if `devices` contains no device.
#[tactic(auto, using(crate::proofs::UntakenRows::words_hold_none))]
fn is_empty(devices: &Devices) -> bool
    ensures { result ≡ true → (a r : ℕ) → a < 16 → r < 64 → holds_device devices.now a r ≡ false }
{
    readings_of(devices) == 0
}

/// Candidates: for each state, by its index, the devices that may be in it.
pub(crate) type Places = [Devices; 12];

/// For each state, by its index, true if the state may have candidates. Rows from any other state are skipped, because they add no
/// candidates.
type Taken = [bool; 12];

/// Returns the states for which `places` contains a device.
fn taken(places: &Places) -> Taken
    ensures { CoversPlaces places.now result }
{
    let mut at = [true; 12];
    for n in 0..12 {
        at[n] = !is_empty(&places[n]);
    }
    at
}

/// Adds the candidates in state `from` of `before` to state `to` of `after`, if a row with `when` applies to them.
fn lead(before: &Places, from: StandardState, when: When, after: &mut Places, to: StandardState)
    ensures { (n : StandardState) (a r : ℕ) → a < 16 → r < 64
        → is_held_at after.new n a r
        ≡ (is_held_at after.old n a r || ((place_number to == place_number n) && (is_held_at before.now from a r && applies_to when a r))) }
{
    let to = to.number();
    after[to] = join(&after[to], &before[from.number()], when);
}

/// Adds to `after`, in the state to which `row` leads, the candidates of `before` to which `row` applies at `event`.
fn go(row: &Row, before: &Places, at: &Taken, event: &LogEvent, after: &mut Places)
    requires { CoversPlaces before.now at.now }
    ensures { (n : StandardState) (a r : ℕ) → a < 16 → r < 64
        → is_held_at after.new n a r ≡ (is_held_at after.old n a r || row_leads before.now event.now n a r row.now) }
{
    if at[row.from.number()] && row_fits_event(row, event) {
        lead(before, row.from, row.when, after, row.next);
    }
}

/// Adds to `after`, in the states to which `rows` lead, the candidates of `before` to which these rows apply at `event`.
fn pass(rows: &[Row], before: &Places, at: &Taken, event: &LogEvent, after: &mut Places)
    requires { CoversPlaces before.now at.now }
    ensures { (n : StandardState) (a r : ℕ) → a < 16 → r < 64
        → is_held_at after.new n a r ≡ (is_held_at after.old n a r || list_any (row_leads before.now event.now n a r) rows.now) }
{
    for row in rows {
        go(row, before, at, event, after);
    }
}

/// Adds to `after` the candidates that `pass` adds for `MARKS`. A request is skipped, because `MARKS` has no row for it.
#[tactic(auto, using(crate::proofs::Requests::marks_lead_no_request))]
fn pass_marks(before: &Places, at: &Taken, event: &LogEvent, after: &mut Places)
    requires { CoversPlaces before.now at.now }
    ensures { (n : StandardState) (a r : ℕ) → a < 16 → r < 64
        → is_held_at after.new n a r ≡ (is_held_at after.old n a r || list_any (row_leads before.now event.now n a r) MARKS) }
{
    if event.asked.number() > 8 {
        pass(&MARKS, before, at, event, after);
    }
}

/// Adds to `after`, in the state to which the move `one` leads, the candidates of `before` to which this move applies.
fn slide(one: &Drift, before: &Places, at: &Taken, after: &mut Places)
    requires { CoversPlaces before.now at.now }
    ensures { (n : StandardState) (a r : ℕ) → a < 16 → r < 64
        → is_held_at after.new n a r ≡ (is_held_at after.old n a r || drift_leads before.now n a r one.now) }
{
    if at[one.from.number()] {
        lead(before, one.from, one.when, after, one.next);
    }
}

/// Returns the candidates of `before`, each in its states and also in the states that it may enter by one of `moves`.
fn drift(moves: &[Drift], before: &Places) -> Places
    ensures { (n : StandardState) (a r : ℕ) → a < 16 → r < 64
        → is_held_at result n a r ≡ (is_held_at before.now n a r || list_any (drift_leads before.now n a r) moves.now) }
{
    let mut after = *before;
    let at = taken(before);
    for one in moves {
        slide(one, before, &at, &mut after);
    }
    after
}

/// Returns the candidates of `before` that may stay in their states at `event`: all of them, or none.
fn rest(before: &Places, event: &LogEvent) -> Places
    ensures { (n : StandardState) (a r : ℕ) → a < 16 → r < 64
        → is_held_at result n a r ≡ (may_stay_at_event event.now && is_held_at before.now n a r) }
{
    if may_stay(event) {
        *before
    } else {
        [[0; 16]; 12]
    }
}

/// Returns the candidates after `event`, if those before it are `before`.
pub(crate) fn step(before: &Places, event: &LogEvent) -> Places
    ensures { (n : StandardState) (a r : ℕ) → a < 16 → r < 64 → is_held_at result n a r ≡ is_held_after_event before.now event.now n a r }
{
    let at = taken(before);
    let mut after = rest(before, event);
    pass(&STANDARD, before, &at, event, &mut after);
    pass_marks(before, &at, event, &mut after);
    pass(&HABITS, before, &at, event, &mut after);
    drift(&DRIFTS, &after)
}

/// Returns true if bit `bit` of `word` is 1.
fn has_bit(word: u64, bit: u8) -> bool
    requires { bit < 64 }
    ensures { result ≡ (bit_at word bit == 1) }
{
    word >> bit & 1 == 1
}

/// Returns true if `devices` contains a device with the set of habits `readings`, for some bmAttributes.
fn is_held(devices: &Devices, readings: u8) -> bool
    requires { readings < 64 }
    ensures { result ≡ has_candidate devices.now readings }
{
    has_bit(readings_of(devices), readings)
}

/// Returns, for each state, true if a device with the set of habits `readings` is a candidate in it.
pub(crate) fn places_of(places: &Places, readings: u8) -> [bool; 12]
    requires { readings < 64 }
    ensures { (n : ℕ) → n < 12 → slice_index_or result n false ≡ has_candidate (slice_index_or places.now n []) readings }
{
    let mut at = [false; 12];
    for n in 0..12 {
        at[n] = is_held(&places[n], readings);
    }
    at
}

/// Returns true if a device with the set of habits `readings` is a candidate in some state.
pub(crate) fn is_any_held(places: &Places, readings: u8) -> bool
    requires { readings < 64 }
    ensures { result ≡ is_held_anywhere places.now readings }
{
    let mut is_some = false;
    for n in 0..12 {
        is_some = is_some || is_held(&places[n], readings);
    }
    is_some
}

/// Returns the smallest set of habits with a candidate, among those with a number below `sets`, or None. It has the fewest habits and, of
/// the sets with equally many, the lowest number.
pub(crate) fn least_held(places: &Places, sets: u8) -> Option<u8>
    requires { sets ≤ 64 }
    ensures { result ≡ least_set_below (is_held_anywhere places.now) sets }
{
    let mut least = None;
    for readings in 0..sets {
        least = smaller_set(is_any_held(places, readings), readings, least);
    }
    least
}

/// Returns the smaller of two sets, which is `readings` if `held` is true and `least` is None or has more habits. Otherwise returns
/// `least`.
fn smaller_set(held: bool, readings: u8, least: Option<u8>) -> Option<u8>
    ensures { result ≡ smaller_set_of_readings held readings least }
{
    if !held {
        return least;
    }
    match least {
        Some(than) if than.count_ones() <= readings.count_ones() => least,
        _ => Some(readings),
    }
}
