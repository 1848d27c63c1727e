//! Laws of the definitions, each the contract of a function that does nothing.

ghost use Rattle.bs_rules.specs.Collision.{CollisionLaw};

/// States that the board after the collisions is the only one on which each seat is judged by the
/// relation and nothing else is changed, so a turn can be read by the relation alone. Does nothing.
pub fn collision_law()
    ensures { CollisionLaw }
{}
