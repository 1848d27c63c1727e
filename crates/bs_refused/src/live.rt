//! A live stay, from its opening to its final line.
use crate::fault::Fault;
use crate::play::CAP;
use crate::scene::Question;
use crate::values::row_of;
use bs_board::Command;
use bs_heap::blocks_for;
use bs_json::TextBuffer;
use bs_live::LiveStay;
use std::alloc::Global;

/// `LiveStay::open`, then `LiveStay::answer` for each command, and `LiveStay::push_final`: the
/// lines.
pub struct PlayStay;

impl Question for PlayStay {
    type On = Vec<Command>;

    type Answer = Vec<u8>;

    fn call(alloc: Global, on: &Vec<Command>) -> Result<Vec<u8>, Fault> {
        let row = row_of(alloc, "a")?;
        let blocks = blocks_for(CAP, row.quota);
        let mut stay = LiveStay::<CAP>::open(alloc, row, blocks)?;
        let mut text = TextBuffer::new(alloc);
        for command in on.iter() {
            stay.answer(alloc, command, &mut text)?;
        }
        stay.push_final(alloc, &mut text)?;
        Ok(text.into_vec())
    }
}
