//! Why a row is not admitted.

/// Why a row is not admitted, in the order in which the reasons are judged.
#[derive(Clone, Copy, Debug, PartialEq, Eq)]
pub enum Refusal {
    /// An open stay has the name.
    NameOpen,
    /// 64 stays are open, or no row is left.
    Full,
    /// The stay needs more blocks than are free to reserve, which are `free_to_reserve`.
    Short { free_to_reserve: usize },
}
