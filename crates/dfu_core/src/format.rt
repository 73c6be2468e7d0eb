//! Reads and writes the record of a format.
ghost use Rattle.std.specs.Prelude.{◌≡◌, IfSome, IfNone};
ghost use Rattle.dfu_asks.specs.declared.formatting.FormatStep.{FormatStep as Part};
ghost use Rattle.dfu_asks.specs.declared.formatting.Formatting.{Formatting as Going};
ghost use Rattle.dfu_core.specs.declared.config.DfuConfig.{DfuConfig as Given};
ghost use Rattle.dfu_core.specs.RecordMeaning.{AreConfigParts};
ghost use Rattle.dfu_core.specs.Formatting.{FORMAT_WORK, HasFormatPhase, IsFormatRecord, ChangesOnlyFormat};

use crate::config::Settings;
use crate::record::DfuRecord;
use dfu_asks::{FormatStep, Formatting};

/// Value of `work` in a record that represents a format.
pub(crate) const WORK: u32 = 3;

// Returns the step of a format that `number` encodes; `from` is the offset in the image at which an Image step begins. None if `number`
// encodes no step.
fn phase_of(number: u8, from: u32) -> Option<FormatStep>
    ensures some { IfSome result (λ phase. HasFormatPhase number from phase) }
    ensures none { IfNone result ((phase : Part) → ¬ HasFormatPhase number from phase) }
{
    match number {
        0 => Some(FormatStep::CloseSecond),
        1 => Some(FormatStep::CloseFirst),
        2 => Some(FormatStep::Image { from }),
        3 => Some(FormatStep::Header),
        4 => Some(FormatStep::Gate),
        5 => Some(FormatStep::Ended),
        _ => None,
    }
}

/// Returns the format that record `kept` represents, or None if it represents no format.
pub fn formatting_of(settings: &Settings, kept: &DfuRecord) -> Option<Formatting>
    ensures some { IfSome result (λ f. (c : Given) → AreConfigParts c settings.now.config settings.now.unit settings.now.sector
        → IsFormatRecord c kept.now f) }
    ensures none { IfNone result ((c : Given) (f : Going) → ¬ IsFormatRecord c kept.now f) }
{
    if kept.work != WORK {
        return None;
    }
    let phase = phase_of(kept.generation, kept.spare)?;
    Some(Formatting {
        unit: settings.unit,
        sector: settings.sector,
        register: kept.sum,
        phase,
        done: kept.done,
    })
}

// Returns the number of a step of a format, and the offset in the image at which an Image step begins, or 0.
fn numbers_of(phase: FormatStep) -> (u8, u32)
    ensures { HasFormatPhase result.0 result.1 phase }
{
    match phase {
        FormatStep::CloseSecond => (0, 0),
        FormatStep::CloseFirst => (1, 0),
        FormatStep::Image { from } => (2, from),
        FormatStep::Header => (3, 0),
        FormatStep::Gate => (4, 0),
        FormatStep::Ended => (5, 0),
    }
}

/// Writes `formatting` into its record `kept`.
pub fn keep_format(formatting: &Formatting, kept: &mut DfuRecord)
    ensures work { kept.new.work ≡ FORMAT_WORK }
    ensures sum { kept.new.sum ≡ formatting.now.register }
    ensures done { kept.new.done ≡ formatting.now.done }
    ensures phase { HasFormatPhase kept.new.generation kept.new.spare formatting.now.phase }
    ensures others { ChangesOnlyFormat kept.old kept.new }
{
    let (number, from) = numbers_of(formatting.phase);
    kept.work = WORK;
    kept.sum = formatting.register;
    kept.done = formatting.done;
    kept.generation = number;
    kept.spare = from;
}
