//! Laws of the slot store. Each law is the contract of a function with an empty body; the contract is proved, and a call has no effect.
//! Other crates, such as dfu_link, call such a function only to cite its law.

ghost use Rattle.std.specs.Prelude.{◌≡◌, ◌≤◌, ◌+◌, ◌*◌, ℕ, List, [], ◌∷◌, ◌++◌, length, take, drop};
ghost use Rattle.dfu_slots.specs.declared.layout.Unit.{Unit as WriteUnit};
ghost use Rattle.dfu_slots.specs.Units.{Grain, in_place_grain, gate_size, gate_room, filled_units};
ghost use Rattle.dfu_slots.specs.Layout.{gate_unit, header};
ghost use Rattle.dfu_slots.specs.Writes.{closed_gate, erasing_write, write_some, put_writes, held_writes, open_writes};
ghost use Rattle.dfu_slots.specs.declared.sequence.Sequence.TheVariants.{Close, Put, Commit, Image};
ghost use Rattle.dfu_slots.specs.Operations.{ops_writes, held_from, operations};
ghost use Rattle.dfu_slots.specs.Medium.{MediumState, Write, AllWrites, BrokenWrites};
ghost use Rattle.dfu_slots.specs.Medium.Fuse.{Whole};
ghost use Rattle.dfu_slots.specs.Image.{Active, HasImage};
ghost use Rattle.dfu_slots.specs.StoreView.{SlotsState, StoreCall, Ending, AllWorked, BrokenBy, CallsEnd, image_of};
ghost use Rattle.dfu_slots.specs.Changes.{FirstOpenFault};
ghost use Rattle.dfu_slots.specs.OneWrite.{IsKnownFuse, SameMedium};
ghost use Rattle.dfu_slots.specs.Determined.{SameStore};
ghost use Rattle.dfu_slots.specs.declared.fault.OpenFault.{OpenFault};
ghost use Rattle.dfu_slots.specs.declared.fault.WriteFault.{WriteFault};

/// A medium has at most one active image. If the medium of a store has an active image, `image_of` the store is exactly this image. A
/// medium that `open` refuses has no active image.
pub fn active_image_is_one()
    ensures one { (m : MediumState) (a b : List ℕ) → Active m a → Active m b → a ≡ b }
    ensures shown { (s : SlotsState) → HasImage s.medium → Active s.medium (image_of s) }
    ensures only { (s : SlotsState) (image : List ℕ) → Active s.medium image → image ≡ image_of s }
    ensures refused { (fault : OpenFault) (m : MediumState) → FirstOpenFault fault m → ¬ HasImage m }
{}

/// On a medium without sectors nothing is erased. One write replaces bytes in place, a closed gate is a gate unit of zeros, and the gate
/// and the header occupy 16 bytes each, or one unit each if the unit is larger.
pub fn without_sectors_nothing_is_erased()
    ensures writes { (at : ℕ) (bytes : List ℕ) → erasing_write 0 at bytes ≡ record { at = at; bytes = bytes } ∷ [] }
    ensures gate { (unit : WriteUnit) → closed_gate (in_place_grain unit) ≡ gate_unit (gate_size unit) 0 }
    ensures room { (unit : WriteUnit) → gate_room (in_place_grain unit) ≡ gate_size unit }
{}

/// The operations of a sequence make exactly the writes of its change, in their order: closing a gate, a `put`, a `commit`, or the next
/// 4,096 bytes of an image.
pub fn operations_are_the_writes()
    ensures close { (w : Grain) (held block head : List ℕ) (slot : ℕ) →
        ops_writes w.sector held block head (operations w (Close slot)) ≡ record { at = slot; bytes = closed_gate w } ∷ [] }
    ensures put { (w : Grain) (held block head : List ℕ) (slot end : ℕ) →
        ops_writes w.sector held block head (operations w (Put slot end (length held) (length block)))
        ≡ put_writes w (held_from w slot end (length held)) held block }
    ensures commit { (w : Grain) (held block head : List ℕ) (slot end gen len crc : ℕ) → length held ≤ 256 →
        head ≡ header 2 gen len crc → ops_writes w.sector held block head (operations w (Commit slot end (length held)))
        ≡ held_writes w (held_from w slot end (length held)) held ++ open_writes w slot gen len crc }
    ensures image { (w : Grain) (image head : List ℕ) (from : ℕ) →
        ops_writes w.sector [] image head (operations w (Image from (length image)))
        ≡ write_some w.sector (2 * gate_room w + from) (take 4096 (drop from (filled_units w.unit image))) }
{}

/// On a medium whose fuse is `Whole` (as `SimMedium::new` and `disarm` leave it) no write and no call fails or lies, and the fuse stays
/// `Whole`. The law says nothing about a medium whose fuse is `Unknown`.
pub fn unarmed_never_fails()
    ensures writes { (writes : List Write) (old now : MediumState) →
        old.fuse ≡ Whole → (fault : WriteFault) → ¬ BrokenWrites fault old writes now }
    ensures writes_stay { (writes : List Write) (old now : MediumState) →
        old.fuse ≡ Whole → AllWrites old writes now → now.fuse ≡ Whole }
    ensures calls { (calls : List StoreCall) (old now : SlotsState) →
        old.medium.fuse ≡ Whole → (fault : WriteFault) → ¬ CallsEnd old calls (BrokenBy fault) now }
    ensures calls_stay { (calls : List StoreCall) (old now : SlotsState) →
        old.medium.fuse ≡ Whole → CallsEnd old calls AllWorked now → now.medium.fuse ≡ Whole }
{}

/// If two stores are equal and their fuse is known, equal calls have the same ending on both: all their writes work, or the same fault
/// interrupts them. They leave equal stores: equal bytes, fuse and grain, equal bytes held back, and the same `put_end`.
pub fn same_bytes_same_end()
    ensures outcome { (calls : List StoreCall) (e d : Ending) (a b x y : SlotsState) →
        SameStore a b → IsKnownFuse a.medium.fuse → CallsEnd a calls e x → CallsEnd b calls d y → e ≡ d }
    ensures end { (calls : List StoreCall) (e : Ending) (a b x y : SlotsState) →
        SameStore a b → IsKnownFuse a.medium.fuse → CallsEnd a calls e x → CallsEnd b calls e y → SameStore x y }
    ensures writes { (writes : List Write) (a b x y : MediumState) →
        SameMedium a b → IsKnownFuse a.fuse → AllWrites a writes x → (fault : WriteFault) → ¬ BrokenWrites fault b writes y }
    ensures written { (writes : List Write) (a b x y : MediumState) →
        SameMedium a b → AllWrites a writes x → AllWrites b writes y → SameMedium x y }
    ensures fault { (f g : WriteFault) (writes : List Write) (a b x y : MediumState) →
        SameMedium a b → IsKnownFuse a.fuse → BrokenWrites f a writes x → BrokenWrites g b writes y → f ≡ g }
    ensures broken { (fault : WriteFault) (writes : List Write) (a b x y : MediumState) →
        SameMedium a b → IsKnownFuse a.fuse → BrokenWrites fault a writes x → BrokenWrites fault b writes y → SameMedium x y }
{}
