//! Laws of a trial. Each is the contract of a function with an empty body. The contracts are proved, and a call has no effect.
ghost use Rattle.std.specs.Prelude.{◌≡◌, ◌⊎◌, ℕ, true, List};
ghost use Rattle.dfu_slots.specs.Medium.{MediumState};
ghost use Rattle.dfu_slots.specs.Image.{Active, HasImage};
ghost use Rattle.dfu_boot.specs.trial.Marks.{AreTries};
ghost use Rattle.dfu_boot.specs.trial.Calls.{IsStanding, mark_op, trial_start, runs_in, upload_operation};
ghost use Rattle.dfu_boot.specs.trial.Laws.{OperationOutcome, AskedResult, TrialContinues, IsConfirmed, ConfirmedImageIsBack, StartOutcome, UploadOutcome, RunsAtNextStart, RunsOrIsNextToRun};
ghost use Rattle.dfu_boot.specs.trial.Trial.{image_at};
ghost use Rattle.dfu_boot.specs.trial.Unread.{MarksAreUnread, UnreadChangesNoImage};
ghost use Rattle.dfu_boot.specs.trial.Lists.{TrialStep, IsTrialTrace, TrustedImages, Alone, Tried, AreTrusted, AllTrusted};
ghost use Rattle.dfu_boot.specs.declared.trial.standing.Settled.{Settled};
ghost use Rattle.dfu_boot.specs.declared.trial.standing.Trial.{Trial};
ghost use Rattle.dfu_boot.specs.declared.trial.standing.Standing.{Standing};
ghost use Rattle.dfu_boot.specs.declared.trial.standing.Standing.TheVariants.{OnTrial, Settled as AreSettled};
ghost use Rattle.dfu_boot.specs.declared.trial.operation.Operation.TheVariants.{Close};

/// Law of a start, for any outcome of its operation. If no image is on trial, the active image runs. On trial with a try left, the image on
/// trial runs and at least one more start is recorded, or the confirmed image runs and the trial is unchanged. On trial without a try left,
/// the confirmed image runs; it is active again, or the trial is unchanged. Some image is active afterwards.
pub fn a_start_runs_one_of_two()
    ensures starts { (m now : MediumState) (tries : ℕ) (s : Standing) → AreTries m.grain tries → IsStanding m tries s →
        AskedResult m (trial_start m.grain tries s).operation now →
        StartOutcome m tries s now (runs_in now (trial_start m.grain tries s) (trial_start m.grain tries s).operation) }
    ensures image { (m now : MediumState) (tries : ℕ) (s : Standing) (ran : ℕ) → AreTries m.grain tries → IsStanding m tries s →
        StartOutcome m tries s now ran → HasImage now }
{}

/// Law of a confirmation of the image on trial, for any outcome of its mark: the image is active and confirmed, or the trial is unchanged.
pub fn a_confirmation_holds_or_the_trial_goes_on()
    ensures { (m now : MediumState) (tries : ℕ) (t : Trial) → AreTries m.grain tries → IsStanding m tries (OnTrial t) →
        OperationOutcome m (mark_op m.grain t.slot 0) now → IsConfirmed m t now ⊎ TrialContinues m tries t now }
{}

/// Law of the end of a trial, on request or because no try is left, for any outcome of its erase: the confirmed image is active again, or
/// the trial is unchanged.
pub fn a_trial_ends_or_goes_on()
    ensures { (m now : MediumState) (tries : ℕ) (t : Trial) → AreTries m.grain tries → IsStanding m tries (OnTrial t) →
        OperationOutcome m (Close t.slot) now → TrialContinues m tries t now ⊎ ConfirmedImageIsBack m t now }
{}

/// Law of an upload, for any outcome of its operation: the image of the upload is the one that the next start runs, or the trial that had
/// to end continues. The start of such an image, for any outcome of its mark, runs the image; if the mark does not read as set, the image
/// is still the next one to run.
pub fn an_upload_gives_what_starts_next()
    ensures upload { (m now : MediumState) (tries : ℕ) (s : Standing) → AreTries m.grain tries → IsStanding m tries s →
        AskedResult m (upload_operation tries s) now → UploadOutcome m tries s now }
    ensures start { (m now : MediumState) (tries : ℕ) (image : List ℕ) (s : Standing) → AreTries m.grain tries
        → RunsAtNextStart m tries image →
        IsStanding m tries s → AskedResult m (trial_start m.grain tries s).operation now →
        RunsOrIsNextToRun image tries (trial_start m.grain tries s).operation now
        (runs_in now (trial_start m.grain tries s) (trial_start m.grain tries s).operation) }
{}

/// Law of starts, confirmations, ends, uploads and downloads in any order, for any outcome of each operation, after an image was confirmed.
/// Each start runs the image that was confirmed last, or the image on trial if that ran fewer than `tries` times before. Some image is
/// active after each event. The first medium has a confirmed image alone, or also an image on trial.
pub fn what_was_confirmed_runs_or_the_newest_on_trial()
    ensures confirmed { (m : MediumState) (tries : ℕ) (s : Settled) → IsStanding m tries (AreSettled s) → s.is_confirmed ≡ true →
        AreTrusted m tries (Alone (image_at m s.slot)) }
    ensures tried { (m : MediumState) (tries : ℕ) (t : Trial) (image : List ℕ) → IsStanding m tries (OnTrial t) → Active m image →
        AreTrusted m tries (Tried (image_at m t.base) image t.starts) }
    ensures list { (m : MediumState) (tries : ℕ) (trust : TrustedImages) (steps : List TrialStep) → AreTries m.grain tries →
        AreTrusted m tries trust → IsTrialTrace tries m steps → AllTrusted tries trust m steps }
    ensures image { (m : MediumState) (tries : ℕ) (trust : TrustedImages) → AreTrusted m tries trust → HasImage m }
{}

/// Law of a mark of a start or a confirmation, in either slot, on trial or not, for any outcome of the write: the store reads no byte of
/// the mark. Therefore an image is active after any marks exactly if it was active before.
pub fn marks_change_no_image()
    ensures unread { MarksAreUnread }
    ensures image { UnreadChangesNoImage }
{}
