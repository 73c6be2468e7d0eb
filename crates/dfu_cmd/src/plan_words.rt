//! The arguments of `dfu plan`.

ghost use Rattle.std.specs.Prelude.{◌≡◌, option_map};

/// Arguments of `dfu plan`.
#[derive(Clone, Copy)]
pub(crate) struct PlanWords<'w> {
    /// Name of the part.
    pub part: &'w str,
    /// Size of the bootloader.
    pub boot: &'w str,
    /// Number of areas.
    pub areas: &'w str,
    /// File with a table of parts; None for the built-in table.
    pub parts: Option<&'w str>,
    /// True if each line is printed as a JSON object.
    pub json: bool,
}

impl<'w> PlanWords<'w> {
    /// Returns the arguments of a command line as one value.
    pub(crate) fn new(
        part: &'w str,
        boot: &'w str,
        areas: &'w str,
        parts: Option<&'w str>,
        json: bool,
    ) -> PlanWords<'w>
        ensures part { result.part.now ≡ part.now }
        ensures boot { result.boot.now ≡ boot.now }
        ensures areas { result.areas.now ≡ areas.now }
        ensures parts { option_map (λ p. p.now) result.parts ≡ option_map (λ p. p.now) parts.entry }
        ensures json { result.json ≡ json }
    {
        PlanWords {
            part,
            boot,
            areas,
            parts,
            json,
        }
    }
}
