// The slip of a draft.
ghost use Rattle.std.specs.Prelude.{◌≡◌};

/// The right to go on with one draft. It cannot be let go: enter or scrap ends it.
pub struct Slip {
    pub(crate) serial: u32,
}

impl Slip {
    /// The serial of the draft.
    pub fn serial(&self) -> u32
        ensures { result ≡ self.now.serial }
    {
        self.serial
    }
}
