//! Goals of a session.

ghost use Rattle.std.specs.Prelude.{◌≡◌, IsTrue, false};
ghost use Rattle.dfu_host.specs.BehindClose.{goal_installs};
ghost use Rattle.dfu_host.specs.Goals.{IsFetch, goal_of, payload_of};

/// Goal of a session. A goal takes no memory, because the caller keeps the bytes that an upload fetches.
#[derive(Clone, Copy)]
pub enum Goal<'f> {
    /// Install a payload, which has at least one byte.
    Load(&'f [u8]),
    /// Fetch the active image.
    Fetch,
    /// Install a payload, which has at least one byte, and compare the active image with it after the last reset.
    Verify(&'f [u8]),
    /// Compare the active image with the payload, which has at least one byte.
    Compare(&'f [u8]),
}

impl<'f> Goal<'f> {
    /// Returns the payload that is sent or compared; empty for an upload.
    pub(crate) fn payload(&self) -> &'f [u8]
        ensures { result.now ≡ payload_of self.now }
    {
        match self {
            Goal::Load(payload) | Goal::Verify(payload) | Goal::Compare(payload) => payload,
            Goal::Fetch => &[],
        }
    }

    /// Returns true if a payload still has to be installed.
    pub(crate) fn installs(&self) -> bool
        ensures { result ≡ goal_installs (goal_of self.now) }
    {
        match self {
            Goal::Load(_) | Goal::Verify(_) => true,
            Goal::Fetch | Goal::Compare(_) => false,
        }
    }

    /// Returns true if the goal is to fetch the image.
    pub(crate) fn is_fetch(&self) -> bool
        ensures yes { IsTrue result → IsFetch self.now }
        ensures no { result ≡ false → IsFetch self.now → ⊥ }
    {
        match self {
            Goal::Fetch => true,
            Goal::Load(_) | Goal::Verify(_) | Goal::Compare(_) => false,
        }
    }
}
