//! Whole turns written as texts, and each step once by itself.
ghost use Rattle.std.specs.Prelude.{◌≡◌, true};
ghost use Rattle.bs_board.specs.boards.Legal.{is_near};
ghost use Rattle.bs_board.specs.boards.Wrap.{AreSides};

use crate::compare::same_board;
use crate::texts::{board, board_after, order};
use bs_board::limits::{LAST_TURN, LONGEST_SIDE, MOST_SNAKES};
use bs_board::{Board, Direction, Move, Moves, Point, Snake, is_legal};
use bs_rules::{collide, feed, finish_turn, first_out, move_snake, move_snakes, next_head, turn};
use bs_samples::{holds, no_orders, same};
use std::alloc::Global;
use std::test::Fail;

// A board, the number of turns, the directions given in each of them, and the resulting board.

/// A snake with its last health that reaches food lives, one that does not starves; two heads on
/// one food are both fed, and equally long; food that no snake reaches stays. Food under the head
/// of an eliminated snake stays too, and does not feed it.
const FEEDING: &str = r"solo 5 10 0|2,3|s 1 2,2 2,1 2,0>1>s=up>11||s 100 2,3 2,2 2,1 2,1
solo 5 10 0||s 1 2,2 2,1 2,0>1>s=up>11||s 0 2,3 2,2 2,1 OutOfHealth in 11
standard 5 10 0|2,2|A 90 1,2 0,2 0,1|B 90 3,2 4,2 4,1>1>A=right B=left>11||A 100 2,2 1,2 0,2 0,2 HeadCollision by 1 in 11|B 100 2,2 3,2 4,2 4,2 HeadCollision by 0 in 11
solo 5 10 0|4,4 0,0|s 90 2,2 2,1 2,0>1>s=right>11| 4,4 0,0|s 89 3,2 2,2 2,1
standard 5 10 0|2,2|A 90 2,2 1,2 0,2 HeadCollision by 1 in 9|B 90 4,1 4,0 3,0|C 90 0,4 1,4 2,4>1>B=up C=down>11| 2,2|A 90 2,2 1,2 0,2 HeadCollision by 1 in 9|B 89 4,2 4,1 4,0|C 89 0,3 0,4 1,4";

/// The longer of two heads lives; of equally long killers the one of the first seat counts; a tail
/// that moves away, and one that stays; a snake that left the board blocks no other; two that run
/// into each other's bodies are both eliminated; a snake that runs into its own body.
const COLLISIONS: &str =
    r"standard 5 10 0||A 90 1,2 0,2 0,1|B 90 3,2 4,2 4,1 4,0>1>A=right B=left>11||A 89 2,2 1,2 0,2 HeadCollision by 1 in 11|B 89 2,2 3,2 4,2 4,1
standard 5 10 0||A 90 1,2 0,2 0,1|B 90 3,2 4,2 4,1 4,0|C 90 2,3 2,4 3,4 4,4>1>A=right B=left C=down>11||A 89 2,2 1,2 0,2 HeadCollision by 1 in 11|B 89 2,2 3,2 4,2 4,1 HeadCollision by 2 in 11|C 89 2,2 2,3 2,4 3,4 HeadCollision by 1 in 11
standard 7 10 0||A 90 1,2 1,1 1,0|B 90 4,2 3,2 2,2>1>A=right B=up>11||A 89 2,2 1,2 1,1|B 89 4,3 4,2 3,2
standard 7 10 0||A 90 1,2 1,1 1,0|B 90 4,2 3,2 2,2 2,2>1>A=right B=up>11||A 89 2,2 1,2 1,1 BodyCollision by 1 in 11|B 89 4,3 4,2 3,2 2,2
standard 5 10 0||A 90 0,2 1,2 2,2|B 90 1,1 1,0 2,0>1>A=left B=up>11||A 89 -1,2 0,2 1,2 WallCollision in 11|B 89 1,2 1,1 1,0
standard 5 10 0||A 90 2,2 1,2 0,2|B 90 3,2 4,2 4,1>1>A=right B=left>11||A 89 3,2 2,2 1,2 BodyCollision by 1 in 11|B 89 2,2 3,2 4,2 BodyCollision by 0 in 11
solo 5 10 0||s 90 2,2 2,3 1,3 1,2 1,1>1>s=left>11||s 89 1,2 2,2 2,3 1,3 1,2 SelfCollision by 0 in 11";

/// One head with two hits. In order: its own body and another's; a body and a head; its own body
/// and a head. Then the longest of several candidates is the killer, whatever its seat: two heads;
/// two bodies; three heads, of which the first two are equally long and the third is shorter; and
/// the same three with a longer third. The order of the causes is held by this table, and by
/// examples/order_of_causes.jsonl as far as it can be seen in play: the bodies of two living snakes
/// share no cell there, so that one's own body comes first is held by this table alone.
const DOUBLE_HITS: &str =
    r"standard 5 10 0||A 90 2,2 2,3 1,3 1,2 1,1|B 90 0,3 0,2 1,2 1,1>1>A=left B=up>11||A 89 1,2 2,2 2,3 1,3 1,2 SelfCollision by 0 in 11|B 89 0,4 0,3 0,2 1,2
standard 5 10 0||A 90 1,2 0,2 0,1|B 90 2,3 2,2 3,2|C 90 2,1 3,1 4,1 4,0>1>A=right B=up C=up>11||A 89 2,2 1,2 0,2 BodyCollision by 1 in 11|B 89 2,4 2,3 2,2|C 89 2,2 2,1 3,1 4,1 BodyCollision by 1 in 11
standard 5 10 0||A 90 2,2 2,3 1,3 1,2 1,1|B 90 0,2 0,1 0,0 1,0 2,0 3,0>1>A=left B=right>11||A 89 1,2 2,2 2,3 1,3 1,2 SelfCollision by 0 in 11|B 89 1,2 0,2 0,1 0,0 1,0 2,0 BodyCollision by 0 in 11
standard 5 10 0||A 90 1,2 0,2 0,1|B 90 3,2 4,2 4,1 4,0|C 90 2,3 2,4 3,4 4,4 4,3>1>A=right B=left C=down>11||A 89 2,2 1,2 0,2 HeadCollision by 2 in 11|B 89 2,2 3,2 4,2 4,1 HeadCollision by 2 in 11|C 89 2,2 2,3 2,4 3,4 4,4
standard 5 10 0||A 90 1,2 0,2 0,1|B 90 2,3 2,2 2,2|C 90 3,2 2,2 2,1 1,1>1>A=right B=up C=right>11||A 89 2,2 1,2 0,2 BodyCollision by 2 in 11|B 89 2,4 2,3 2,2|C 89 4,2 3,2 2,2 2,1
standard 5 10 0||A 90 1,2 0,2 0,3|B 90 3,2 4,2 4,1 4,0|C 90 2,3 2,4 3,4 4,4|D 90 2,1 2,0 1,0>1>A=right B=left C=down D=up>11||A 89 2,2 1,2 0,2 HeadCollision by 1 in 11|B 89 2,2 3,2 4,2 4,1 HeadCollision by 2 in 11|C 89 2,2 2,3 2,4 3,4 HeadCollision by 1 in 11|D 89 2,2 2,1 2,0 HeadCollision by 1 in 11
standard 5 10 0||A 90 1,2 0,2 0,3|B 90 3,2 4,2 4,1 4,0|C 90 2,3 2,4 3,4 4,4|D 90 2,1 2,0 1,0 0,0 0,1>1>A=right B=left C=down D=up>11||A 89 2,2 1,2 0,2 HeadCollision by 3 in 11|B 89 2,2 3,2 4,2 4,1 HeadCollision by 3 in 11|C 89 2,2 2,3 2,4 3,4 HeadCollision by 3 in 11|D 89 2,2 2,1 2,0 1,0 0,0";

/// Without a direction: a snake that has just started goes up, then straight on, into the wall;
/// straight on to each side. On a board wider than it is high, a snake may be inside its width and
/// outside its height.
const MOTION: &str = r"solo 3 0 0||s 100 1,1 1,1 1,1>1>>1||s 99 1,2 1,1 1,1
solo 3 0 0||s 100 1,1 1,1 1,1>2>>2||s 98 1,3 1,2 1,1 WallCollision in 2
standard 7 9 0||A 90 2,2 3,2 4,2|B 90 4,4 3,4 2,4|C 90 5,3 5,4 5,5>1>>10||A 89 1,2 2,2 3,2|B 89 5,4 4,4 3,4 BodyCollision by 2 in 10|C 89 5,2 5,3 5,4
solo 7x5 10 0||s 90 5,1 4,1 3,1>1>s=right>11||s 89 6,1 5,1 4,1
solo 7x5 10 0||s 90 5,4 4,4 3,4>1>s=up>11||s 89 5,5 5,4 4,4 WallCollision in 11";

/// The word selects the last but one of seven free cells. A word above 65,535 is used whole.
const FOOD: &str = r"solo 3 0 1||s 100 1,1 1,1 1,1>1>5>1| 0,2|s 99 1,2 1,1 1,1
solo 3 0 1||s 100 1,1 1,1 1,1>1>65536>1| 2,0|s 99 1,2 1,1 1,1
solo 3 0 1||s 100 1,1 1,1 1,1>1>4294967295>1| 0,1|s 99 1,2 1,1 1,1";

/// In constrictor bodies grow as soon as they are stretched, except those of eliminated snakes.
const CONSTRICTOR: &str =
    r"constrictor 7 0 0||s 100 1,1 1,1 1,1|t 100 5,1 5,1 5,1>1>>1||s 100 1,2 1,1 1,1|t 100 5,2 5,1 5,1
constrictor 7 0 0||s 100 1,1 1,1 1,1|t 100 5,1 5,1 5,1>3>>3||s 100 1,4 1,3 1,2 1,1 1,1|t 100 5,4 5,3 5,2 5,1 5,1
constrictor 7 3 0||s 100 1,4 1,3 1,2 1,1 1,1|t 100 5,4 5,3 5,2 5,1 5,1|u 99 3,2 3,1 3,0 HeadCollision by 1 in 2>1>>4||s 100 1,5 1,4 1,3 1,2 1,1 1,1|t 100 5,5 5,4 5,3 5,2 5,1 5,1|u 99 3,2 3,1 3,0 HeadCollision by 1 in 2";

/// Two snakes cross the right edge, first by a direction, then straight on; two heads meet on a
/// cell beyond an edge; a snake starves on the far side; straight on over three edges. Then boards
/// that are not square: over an edge by a direction, and straight on, each side by its own length.
const WRAPPED: &str =
    r"wrapped 5 0 0||s 100 3,1 3,1 3,1|t 100 3,3 3,3 3,3>1>s=right t=right>1||s 99 4,1 3,1 3,1|t 99 4,3 3,3 3,3
wrapped 5 1 0||s 99 4,1 3,1 3,1|t 99 4,3 3,3 3,3>1>>2||s 98 0,1 4,1 3,1|t 98 0,3 4,3 3,3
wrapped 5 2 0||s 98 0,1 4,1 3,1|t 98 0,3 4,3 3,3>1>>3||s 97 1,1 0,1 4,1|t 97 1,3 0,3 4,3
wrapped 5 10 0||A 90 0,2 1,2 2,2|B 90 4,1 4,0 3,0>1>A=left B=up>11||A 89 4,2 0,2 1,2 HeadCollision by 1 in 11|B 89 4,2 4,1 4,0 HeadCollision by 0 in 11
wrapped 3 10 0||s 1 1,0 1,1 1,2>1>>11||s 0 1,2 1,0 1,1 OutOfHealth in 11
wrapped 7 10 0||A 90 0,0 0,1 0,2|B 90 6,3 5,3 4,3|C 90 3,6 3,5 3,4>2>>12||A 88 0,5 0,6 0,0|B 88 1,3 0,3 6,3|C 88 3,1 3,0 3,6
wrapped 7x5 10 0||A 90 5,1 4,1 3,1|B 90 2,4 2,3 2,2>2>A=right B=up>12||A 88 0,1 6,1 5,1|B 88 2,1 2,0 2,4
wrapped 5x7 10 0||A 90 0,6 0,5 0,4|B 90 0,2 4,2 3,2>2>>12||A 88 0,1 0,0 0,6|B 88 2,2 1,2 0,2";

/// Returns the board after one turn.
fn next_board(alloc: Global, before: &Board, order: &Move) -> Result<Board, Fail> {
    holds("a legal board", is_legal(before))?;
    holds("a turn to come", before.turn < LAST_TURN)?;
    Ok(turn(alloc, before, order)?)
}

/// Returns the board after `turns` turns of the same move.
fn played(alloc: Global, before: &Board, order: &Move, turns: u32) -> Result<Board, Fail> {
    let mut next = before.copy(alloc)?;
    for _ in 0..turns {
        next = next_board(alloc, &next, order)?;
    }
    Ok(next)
}

/// Plays "BEFORE>TURNS>ORDERS>AFTER".
fn check_row(alloc: Global, row: &str) -> Result<(), Fail> {
    let (before, rest) = row.split_once('>').ok_or("a board")?;
    let (turns, rest) = rest.split_once('>').ok_or("turns")?;
    let (ordered, after) = rest.split_once('>').ok_or("orders")?;
    let before = board(alloc, before)?;
    let turns = turns.parse::<u32>().ok().ok_or("turns")?;
    let next = played(alloc, &before, &order(alloc, ordered)?, turns)?;
    same_board(row, &next, &board_after(alloc, &before, after)?)
}

#[test]
fn turns_are_played(rt: HostRuntime) -> Result<(), Fail> {
    for table in [
        FEEDING,
        COLLISIONS,
        DOUBLE_HITS,
        MOTION,
        FOOD,
        CONSTRICTOR,
        WRAPPED,
    ] {
        for row in table.split('\n') {
            check_row(rt.alloc(), row)?;
        }
    }
    Ok(())
}

const MEETING: &str = "standard 5 10 0|2,2|A 90 1,2 0,2 0,1|B 90 3,2 4,2 4,1";

const MOVED: &str = "10| 2,2|A 89 2,2 1,2 0,2|B 89 2,2 3,2 4,2";

const FED: &str = "10||A 100 2,2 1,2 0,2 0,2|B 100 2,2 3,2 4,2 4,2";

const COLLIDED: &str =
    "10||A 100 2,2 1,2 0,2 0,2 HeadCollision by 1 in 11|B 100 2,2 3,2 4,2 4,2 HeadCollision by 0 in 11";

const FINISHED: &str =
    "11||A 100 2,2 1,2 0,2 0,2 HeadCollision by 1 in 11|B 100 2,2 3,2 4,2 4,2 HeadCollision by 0 in 11";

/// Compares the board with that board of the same game.
fn check_after(alloc: Global, what: &str, board: &Board, text: &str) -> Result<(), Fail> {
    same_board(what, board, &board_after(alloc, board, text)?)
}

/// Moves the first snake straight on.
#[tactic(auto, using(bs_rules::proofs::Movable::legal_is_movable))]
fn first_moved(alloc: Global, before: &Board) -> Result<Snake, Fail> {
    holds("a legal board", is_legal(before))?;
    let snakes = before.snakes.as_slice();
    holds("two snakes", snakes.len() == 2)?;
    Ok(move_snake(alloc, &snakes[0], None, None)?)
}

/// Moves each snake straight on.
#[tactic(auto, using(bs_rules::proofs::Movable::legal_is_movable))]
fn all_moved(alloc: Global, before: Board) -> Result<Board, Fail> {
    holds("a legal board", is_legal(&before))?;
    let mut next = before;
    move_snakes(&mut next.snakes, &Moves::new(alloc), None);
    Ok(next)
}

/// Makes the board on which two snakes have moved to one food.
fn meeting(alloc: Global) -> Result<Board, Fail> {
    let before = board(alloc, MEETING)?;
    let alone = first_moved(alloc, &before)?;
    let next = all_moved(alloc, before)?;
    let moved = next.snakes.as_slice().first().ok_or("a snake")?;
    same(
        "the first, by itself",
        alone.body.as_slice(),
        moved.body.as_slice(),
    )?;
    check_after(alloc, "after the moves", &next, MOVED)?;
    Ok(next)
}

/// Eliminates the snakes that have starved or left the board.
fn eliminate(board: &mut Board) -> Result<(), Fail> {
    holds("a turn to come", board.turn < LAST_TURN)?;
    first_out(board);
    Ok(())
}

/// Eliminates the snakes that collide.
fn let_collide(board: &mut Board) -> Result<(), Fail> {
    holds("a turn to come", board.turn < LAST_TURN)?;
    holds("few snakes", board.snakes.len() <= MOST_SNAKES)?;
    collide(board);
    Ok(())
}

fn feed_and_collide(alloc: Global, next: &mut Board) -> Result<(), Fail> {
    feed(alloc, next)?;
    eliminate(next)?;
    check_after(alloc, "after feeding", next, FED)?;
    let_collide(next)?;
    check_after(alloc, "after the collisions", next, COLLIDED)
}

/// The steps one by one, with two snakes that meet at one food.
#[test]
fn two_heads_meet_at_food(rt: HostRuntime) -> Result<(), Fail> {
    let alloc = rt.alloc();
    let mut next = meeting(alloc)?;
    feed_and_collide(alloc, &mut next)
}

/// All steps after the motion.
#[test]
fn the_rest_of_a_turn(rt: HostRuntime) -> Result<(), Fail> {
    let alloc = rt.alloc();
    let moved = meeting(alloc)?;
    holds("a turn to come", moved.turn < LAST_TURN)?;
    holds("few snakes", moved.snakes.len() <= MOST_SNAKES)?;
    let finished = finish_turn(alloc, moved, &no_orders(alloc))?;
    check_after(alloc, "at the end", &finished, FINISHED)
}

/// Checks the cell that the head steps to.
fn check_next(
    wrap: Option<(u8, u8)>,
    given: Option<Direction>,
    head: Point,
    second: Point,
    wanted: Point,
) -> Result<(), Fail>
    requires sides { AreSides wrap }
    requires head { is_near LONGEST_SIDE LONGEST_SIDE head ≡ true }
    requires second { is_near LONGEST_SIDE LONGEST_SIDE second ≡ true }
{
    same("the head", next_head(wrap, given, head, second), wanted)
}

/// In the given direction; else straight on, also off the board, and up if the parts are on one
/// cell.
#[test]
fn next_heads(_rt: HostRuntime) -> Result<(), Fail> {
    let (at, left, below) = (
        Point { x: 6, y: 1 },
        Point { x: 5, y: 1 },
        Point { x: 6, y: 0 },
    );
    let up = Some(Direction::Up);
    check_next(None, up, at, left, Point { x: 6, y: 2 })?;
    check_next(None, None, at, left, Point { x: 7, y: 1 })?;
    check_next(None, None, at, below, Point { x: 6, y: 2 })?;
    check_next(None, None, left, at, Point { x: 4, y: 1 })?;
    check_next(None, None, at, at, Point { x: 6, y: 2 })
}

/// On a wrapped board of 7 columns and 5 rows: straight on over the right edge and on from there,
/// the same at the lower edge, and over the left edge in a given direction.
#[test]
fn next_heads_over_an_edge(_rt: HostRuntime) -> Result<(), Fail> {
    let sides = Some((7, 5));
    let (right, left) = (Point { x: 6, y: 1 }, Point { x: 0, y: 1 });
    check_next(sides, None, right, Point { x: 5, y: 1 }, left)?;
    check_next(sides, None, left, right, Point { x: 1, y: 1 })?;
    let (below, above) = (Point { x: 2, y: 0 }, Point { x: 2, y: 4 });
    check_next(sides, None, below, Point { x: 2, y: 1 }, above)?;
    check_next(sides, None, above, below, Point { x: 2, y: 3 })?;
    let to_left = Some(Direction::Left);
    check_next(sides, to_left, left, Point { x: 0, y: 0 }, right)
}
