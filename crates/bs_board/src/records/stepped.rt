//! The record of a snake that moves one step, made from the record that it had.

ghost use Rattle.std.specs.Prelude.{◌≡◌, ◌-◌, ◌/◌, ◌+◌, ◌<◌, ◌∷◌, ◌++◌, length, MatchOption, unwrap_or};
ghost use Rattle.bs_board.specs.declared.boards.snake.Snake.{Snake as AnySnake};
ghost use Rattle.bs_board.specs.records.Layout.{IsSnakeBytes};
ghost use Rattle.bs_board.specs.records.Record.{killer_byte, snake_record, two_bytes};
ghost use Rattle.bs_board.specs.records.Stepped.{CanStep, stepped};
ghost use Rattle.bs_board.specs.records.Writing.{IsByteCell};

use crate::boards::point::Point;
use crate::records::encoding::{killer_byte, put, put_cell, two_bytes};
use crate::records::layout::SnakeBytes;

/// The bytes between the id and the parts of a living snake, with one health less.
#[inline(always)]
fn stepped_state(snake: &SnakeBytes<'_>) -> [u8; 7]
    requires killer { MatchOption snake.now.killer (Unit {0}) (λ seat. seat + 1 < 256) }
    requires parts { length snake.now.body.now / 2 < 65536 }
    ensures { result ≡ ((snake.now.health - 1) ∷ 0 ∷ killer_byte snake.now.killer ∷ two_bytes (unwrap_or snake.now.out 0))
        ++ two_bytes (length snake.now.body.now / 2) }
{
    let [out_high, out_low] = two_bytes(snake.out.unwrap_or(0));
    let [parts_high, parts_low] = two_bytes((snake.body.len() / 2) as u16);
    [
        snake.health.saturating_sub(1),
        0,
        killer_byte(snake.killer),
        out_high,
        out_low,
        parts_high,
        parts_low,
    ]
}

/// Writes the record of a living snake that moves one step over a slice of that length: it gets
/// that head, loses its last part, and has one health less. Its record before is not decoded.
pub fn encode_stepped_into(snake: &SnakeBytes<'_>, head: Point, into: &mut [u8])
    requires snake { (s : AnySnake) × CanStep s × IsSnakeBytes s snake.now × (length into.old ≡ length (snake_record s)) }
    requires head { IsByteCell 1 head }
    ensures { (s : AnySnake) → CanStep s → IsSnakeBytes s snake.now → into.new ≡ snake_record (stepped head s) }
{
    let id = put(into, 0, &[snake.id.len() as u8]);
    let state = put(into, id, snake.id);
    let cells = put(into, state, &stepped_state(snake));
    let rest = put_cell(into, cells, head, 1);
    put(into, rest, &snake.body[..snake.body.len() - 2]);
}

impl SnakeBytes<'_> {
    ghost use Rattle.std.specs.Prelude.{◌≡◌, ◌+◌, ◌*◌, ◌≤◌, ◌<◌, All, length, slice_index_or};
    ghost use Rattle.bs_board.specs.declared.boards.snake.Snake.{Snake as AnySnake};
    ghost use Rattle.bs_board.specs.boards.Cell.{origin};
    ghost use Rattle.bs_board.specs.records.Layout.{IsSnakeBytes};
    ghost use Rattle.bs_board.specs.records.Writing.{IsByteCell};

    /// The cell of a part of the body, from the head at 0.
    #[inline(always)]
    pub fn part(&self, index: usize) -> Point
        requires { 2 * index + 2 ≤ length self.now.body.now }
        ensures { (s : AnySnake) → IsSnakeBytes s self.now → All (IsByteCell 1) s.body → result ≡ slice_index_or s.body index origin }
    {
        let at = 2 * index;
        Point {
            x: i16::from(self.body[at]) - 1,
            y: i16::from(self.body[at + 1]) - 1,
        }
    }
}
