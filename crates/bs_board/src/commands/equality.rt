//! Equality of commands.

ghost use Rattle.std.specs.Prelude.{◌≡◌, ◌↔◌, IsTrue};

use crate::boards::cells::Cells;
use crate::boards::hazards::Hazards;
use crate::boards::point::Point;
use crate::commands::command::Command;
use crate::commands::orders::Move;
use crate::commands::setup::New;
use crate::id::Id;

impl PartialEq for Id {
    ghost use Rattle.std.specs.Prelude.{nat_eq};
    ghost use Rattle.std.specs.Cmp.Lexicographic.{pointwise};
    ghost use Rattle.std.specs.Cmp.{partial_equiv_from_equiv};
    ghost use Rattle.std.proofs.lemmas.Cmp.{nat_list_eq_equiv};

    ghost eq = { pointwise nat_eq };

    ghost laws = { partial_equiv_from_equiv nat_list_eq_equiv };

    fn eq(&self, other: &Id) -> bool {
        self.as_str() == other.as_str()
    }
}

fn are_same_cells(cells: &[Point], others: &[Point]) -> bool
    ensures { IsTrue result ↔ cells.now ≡ others.now }
{
    cells == others
}

fn are_same_starts(starts: &[(Id, Point)], others: &[(Id, Point)]) -> bool
    ensures { IsTrue result ↔ starts.now ≡ others.now }
{
    starts == others
}

fn are_same_given(cells: &Option<Cells>, others: &Option<Cells>) -> bool
    ensures { IsTrue result ↔ cells.now ≡ others.now }
{
    match (cells, others) {
        (None, None) => true,
        (Some(cells), Some(others)) => are_same_cells(cells.as_slice(), others.as_slice()),
        _ => false,
    }
}

fn are_same_hazards(hazards: &Option<Hazards>, others: &Option<Hazards>) -> bool
    ensures { IsTrue result ↔ hazards.now ≡ others.now }
{
    match (hazards, others) {
        (None, None) => true,
        (Some(hazards), Some(others)) => {
            hazards.damage == others.damage
                && are_same_cells(hazards.cells.as_slice(), others.cells.as_slice())
        }
        _ => false,
    }
}

impl Move {
    fn is_same(&self, other: &Move) -> bool
        ensures { IsTrue result ↔ self.now ≡ other.now }
    {
        self.moves.is_same(&other.moves)
            && self.words.as_slice() == other.words.as_slice()
            && are_same_given(&self.hazards, &other.hazards)
            && are_same_given(&self.food, &other.food)
    }
}

impl New {
    fn has_same_sides(&self, other: &New) -> bool
        ensures { IsTrue result ↔ (self.now.mode ≡ other.now.mode) × (self.now.width ≡ other.now.width) × (self.now.height ≡ other.now.height) }
    {
        self.mode == other.mode && self.width == other.width && self.height == other.height
    }

    fn is_same(&self, other: &New) -> bool
        ensures { IsTrue result ↔ self.now ≡ other.now }
    {
        self.has_same_sides(other)
            && self.min_food == other.min_food
            && self.chance == other.chance
            && are_same_starts(self.snakes.as_slice(), other.snakes.as_slice())
            && are_same_cells(self.food.as_slice(), other.food.as_slice())
            && are_same_hazards(&self.hazards, &other.hazards)
    }
}

impl Command {
    /// Whether both are the same command.
    pub fn is_same(&self, other: &Command) -> bool
        ensures { IsTrue result ↔ self.now ≡ other.now }
    {
        match (self, other) {
            (Command::New(new), Command::New(another)) => new.is_same(another),
            (Command::Move(orders), Command::Move(others)) => orders.is_same(others),
            (Command::Show, Command::Show) => true,
            (Command::Turn(at), Command::Turn(another)) => at == another,
            (Command::Free, Command::Free) => true,
            (Command::End, Command::End) => true,
            (Command::Bad, Command::Bad) => true,
            _ => false,
        }
    }
}
