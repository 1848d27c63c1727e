//! The versions of the format of command files.

ghost use Rattle.std.specs.Prelude.{◌≡◌};
ghost use Rattle.bs_board.specs.plans.Version.{has_hazards, has_stays, has_wrapped, version_number, version_numbered};

/// A version of the format of command files. Each includes all of the versions before it.
#[derive(Clone, Copy, Debug, PartialEq, Eq)]
pub enum Version {
    One,
    /// Adds the mode `wrapped`.
    Two,
    /// Adds lines that admit and dismiss games.
    Three,
    /// Adds hazards, and food that a move gives.
    Five,
}

impl Version {
    /// The version of that number; `None` for any other number.
    pub fn from_number(number: u64) -> Option<Version>
        ensures { result ≡ version_numbered number }
    {
        match number {
            1 => Some(Version::One),
            2 => Some(Version::Two),
            3 => Some(Version::Three),
            5 => Some(Version::Five),
            _ => None,
        }
    }

    /// The number of the version in a plan.
    pub fn number(self) -> u8
        ensures { result ≡ version_number self }
    {
        match self {
            Version::One => 1,
            Version::Two => 2,
            Version::Three => 3,
            Version::Five => 5,
        }
    }

    /// Whether a game may be played in wrapped mode.
    pub fn has_wrapped(self) -> bool
        ensures { result ≡ has_wrapped self }
    {
        match self {
            Version::One => false,
            Version::Two | Version::Three | Version::Five => true,
        }
    }

    /// Whether lines may admit and dismiss games.
    pub fn has_stays(self) -> bool
        ensures { result ≡ has_stays self }
    {
        match self {
            Version::One | Version::Two => false,
            Version::Three | Version::Five => true,
        }
    }

    /// Whether games have hazards, and moves may give hazards and food.
    pub fn has_hazards(self) -> bool
        ensures { result ≡ has_hazards self }
    {
        match self {
            Version::One | Version::Two | Version::Three => false,
            Version::Five => true,
        }
    }
}
