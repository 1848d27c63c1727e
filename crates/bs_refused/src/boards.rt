//! Boards as records and back, and copies of the parts of boards, commands and plans.
use crate::fault::Fault;
use crate::scene::Question;
use crate::values::{
    LONG_NAME, TWO_HEADS, bytes_of, hazardous_solo, kept_of, map_orders, plan_of, two_heads,
};
use bs_board::{
    Board, Cells, Command, Id, KeptBoard, Move, Moves, Plan, Point, Record, Reply, Snake, decode,
    decode_snake, encode, is_legal,
};
use bs_registry::open_rows;
use std::alloc::Global;

pub fn id_of(alloc: Global) -> Result<Id, Fault> {
    Ok(Id::from_str(alloc, LONG_NAME)?)
}

pub fn new_of(alloc: Global) -> Result<Command, Fault> {
    Ok(Command::New(hazardous_solo(alloc)?))
}

pub fn orders_of(alloc: Global) -> Result<Command, Fault> {
    Ok(Command::Move(map_orders(alloc)?))
}

/// `Id::from_str`.
pub struct MakeId;

impl Question for MakeId {
    type On = &'static str;

    type Answer = Id;

    fn call(alloc: Global, on: &&'static str) -> Result<Id, Fault> {
        Ok(Id::from_str(alloc, on)?)
    }
}

/// `Cells::push`, several times.
pub struct PushCells;

impl Question for PushCells {
    type On = i16;

    type Answer = Cells;

    fn call(alloc: Global, on: &i16) -> Result<Cells, Fault> {
        let mut cells = Cells::new(alloc);
        for x in 0..*on {
            cells.push(Point { x, y: 0 })?;
        }
        Ok(cells)
    }
}

/// `decode`.
pub struct Decoding;

impl Question for Decoding {
    type On = Vec<u8>;

    type Answer = Board;

    fn call(alloc: Global, on: &Vec<u8>) -> Result<Board, Fault> {
        Ok(decode(alloc, on.as_slice())?)
    }
}

/// `decode_snake`.
pub struct DecodeSnake;

impl Question for DecodeSnake {
    type On = Vec<u8>;

    type Answer = Snake;

    fn call(alloc: Global, on: &Vec<u8>) -> Result<Snake, Fault> {
        Ok(decode_snake(alloc, on.as_slice())?)
    }
}

/// `encode`.
pub struct Encoding;

impl Question for Encoding {
    type On = Board;

    type Answer = Vec<u8>;

    fn call(alloc: Global, on: &Board) -> Result<Vec<u8>, Fault> {
        if !is_legal(on) {
            return Err(Fault::NotLegal);
        }
        Ok(encode(alloc, on)?)
    }
}

/// `KeptBoard::of`, and `Record::of` in it.
pub struct Keep;

impl Question for Keep {
    type On = Board;

    type Answer = KeptBoard;

    fn call(alloc: Global, on: &Board) -> Result<KeptBoard, Fault> {
        if !is_legal(on) {
            return Err(Fault::NotLegal);
        }
        Ok(KeptBoard::of(alloc, on)?)
    }
}

/// `KeptBoard::board`, and `Record::board` in it.
pub struct Unkeep;

impl Question for Unkeep {
    type On = KeptBoard;

    type Answer = Board;

    fn call(alloc: Global, on: &KeptBoard) -> Result<Board, Fault> {
        Ok(on.board(alloc)?)
    }
}

/// `Record::of_bytes`.
pub struct KeepBytes;

impl Question for KeepBytes {
    type On = Board;

    type Answer = Record;

    fn call(alloc: Global, on: &Board) -> Result<Record, Fault> {
        if !is_legal(on) {
            return Err(Fault::NotLegal);
        }
        let bytes = encode(alloc, on)?;
        Ok(Record::of_bytes(alloc, bytes.as_slice())?)
    }
}

/// `Id::copy`.
pub struct CopyId;

impl Question for CopyId {
    type On = Id;

    type Answer = Id;

    fn call(alloc: Global, on: &Id) -> Result<Id, Fault> {
        Ok(on.copy(alloc)?)
    }
}

/// `Board::copy`, which copies snakes, cells and ids.
pub struct CopyBoard;

impl Question for CopyBoard {
    type On = Board;

    type Answer = Board;

    fn call(alloc: Global, on: &Board) -> Result<Board, Fault> {
        Ok(on.copy(alloc)?)
    }
}

/// `Reply::copy`, and `KeptBoard::share` in it.
pub struct CopyReply;

impl Question for CopyReply {
    type On = Reply;

    type Answer = Reply;

    fn call(alloc: Global, on: &Reply) -> Result<Reply, Fault> {
        Ok(on.copy(alloc)?)
    }
}

/// `Command::copy`, with all parts of the command.
pub struct CopyCommand;

impl Question for CopyCommand {
    type On = Command;

    type Answer = Command;

    fn call(alloc: Global, on: &Command) -> Result<Command, Fault> {
        Ok(on.copy(alloc)?)
    }
}

/// `Moves::to_vec` and `Moves::entries`, and `Moves::push`, which makes the same list again.
pub struct PushMoves;

impl Question for PushMoves {
    type On = Move;

    type Answer = Moves;

    fn call(alloc: Global, on: &Move) -> Result<Moves, Fault> {
        let mut moves = Moves::new(alloc);
        let entries = on.moves.to_vec(alloc)?;
        let count = on.moves.entries(alloc)?.len().min(entries.len());
        for (id, direction) in &entries.as_slice()[..count] {
            moves.push(id.as_bytes(), *direction)?;
        }
        Ok(moves)
    }
}

/// `Plan::copy`, which copies rows and names.
pub struct CopyPlan;

impl Question for CopyPlan {
    type On = Plan;

    type Answer = Plan;

    fn call(alloc: Global, on: &Plan) -> Result<Plan, Fault> {
        Ok(on.copy(alloc)?)
    }
}

/// `open_rows`: the number of rows made, and of open stays.
pub struct OpenRows;

impl Question for OpenRows {
    type On = Plan;

    type Answer = (usize, usize);

    fn call(alloc: Global, on: &Plan) -> Result<(usize, usize), Fault> {
        let stays = open_rows(alloc, &on.rows)?;
        Ok((stays.made(), stays.as_slice().len()))
    }
}
