ghost use Rattle.std.specs.Prelude.{◌≡◌, ◌↔◌, IsTrue};
ghost use Rattle.cg_disk.specs.declared.armed.Armed.TheVariants.{Failure};

/// What is armed, each with the number of calls that come before the one that it strikes.
#[derive(Clone, Copy, Debug, PartialEq, Eq)]
pub enum Armed {
    Nothing,
    Failure(u64),
    Stop(u64),
}

impl Armed {
    /// Whether the next call fails once.
    pub fn fails_next(self) -> bool
        ensures { IsTrue result ↔ (self ≡ Failure 0) }
    {
        match self {
            Armed::Failure(0) => true,
            Armed::Failure(_) => false,
            Armed::Nothing => false,
            Armed::Stop(_) => false,
        }
    }
}
