//! The texts of the columns and rows of a board, from which those of cells are put together.
ghost use Rattle.std.specs.Prelude.{◌≡◌, ◌++◌, ◌∷◌, ◌<◌, ◌≤◌, ◌+◌, codes, decimal, length, take};
ghost use Rattle.bs_json.specs.inner.BoardText.{byte_before};

/// The columns and rows that have a text here: those of the largest board.
pub(crate) const SIDE: u8 = 25;

/// The text of each column, behind that which precedes it in a cell of a list. A column of one
/// digit has a space behind it.
static COLUMNS: [[u8; 8]; 25] = [
    *b",{\"x\":0 ",
    *b",{\"x\":1 ",
    *b",{\"x\":2 ",
    *b",{\"x\":3 ",
    *b",{\"x\":4 ",
    *b",{\"x\":5 ",
    *b",{\"x\":6 ",
    *b",{\"x\":7 ",
    *b",{\"x\":8 ",
    *b",{\"x\":9 ",
    *b",{\"x\":10",
    *b",{\"x\":11",
    *b",{\"x\":12",
    *b",{\"x\":13",
    *b",{\"x\":14",
    *b",{\"x\":15",
    *b",{\"x\":16",
    *b",{\"x\":17",
    *b",{\"x\":18",
    *b",{\"x\":19",
    *b",{\"x\":20",
    *b",{\"x\":21",
    *b",{\"x\":22",
    *b",{\"x\":23",
    *b",{\"x\":24",
];

/// The text of each row, between those around it in a cell. A row of one digit has a space behind
/// it.
static ROWS: [[u8; 8]; 25] = [
    *b",\"y\":0} ",
    *b",\"y\":1} ",
    *b",\"y\":2} ",
    *b",\"y\":3} ",
    *b",\"y\":4} ",
    *b",\"y\":5} ",
    *b",\"y\":6} ",
    *b",\"y\":7} ",
    *b",\"y\":8} ",
    *b",\"y\":9} ",
    *b",\"y\":10}",
    *b",\"y\":11}",
    *b",\"y\":12}",
    *b",\"y\":13}",
    *b",\"y\":14}",
    *b",\"y\":15}",
    *b",\"y\":16}",
    *b",\"y\":17}",
    *b",\"y\":18}",
    *b",\"y\":19}",
    *b",\"y\":20}",
    *b",\"y\":21}",
    *b",\"y\":22}",
    *b",\"y\":23}",
    *b",\"y\":24}",
];

/// The number of bytes of a text of these tables, without the space behind it.
#[tactic(auto, using(itoa::proofs::Decimal::length_one, itoa::proofs::Decimal::length_two))]
#[inline(always)]
pub(crate) fn text_len(number: u8) -> usize
    requires { number < 25 }
    ensures value { result ≡ 6 + length (decimal number) }
    ensures within { result ≤ 8 }
{
    if number < 10 { 7 } else { 8 }
}

/// The text of a column, behind the byte `lead`.
#[inline(always)]
pub(crate) fn column_text(lead: u8, column: u8) -> [u8; 8]
    requires { column < 25 }
    ensures { take (6 + length (decimal column)) result ≡ lead ∷ (codes "{\"x\":" ++ decimal column) }
{
    let mut piece = COLUMNS[usize::from(column)];
    piece[0] = lead;
    piece
}

/// The text of a row.
#[inline(always)]
pub(crate) fn row_text(row: u8) -> [u8; 8]
    requires { row < 25 }
    ensures { take (6 + length (decimal row)) result ≡ codes ",\"y\":" ++ (decimal row ++ codes "}") }
{
    ROWS[usize::from(row)]
}

/// The byte before a cell of a list: a comma, or the bracket that opens the list.
#[inline(always)]
pub(crate) fn byte_before(later: bool) -> u8
    ensures { result ≡ byte_before later }
{
    if later { b',' } else { b'[' }
}
