//! The turn that the plane follows is the turn of the rules.
ghost use Rattle.bs_plane.specs.Turn.{QuietLaw};

/// Does nothing. Its contract: where no snake goes out, and the move gives no hazards, the turn of
/// the rules is that of `followed`.
pub fn quiet_law()
    ensures { QuietLaw }
{}
