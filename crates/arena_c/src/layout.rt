//! The layout of the structs that cross, for the tests of the bindings.

ghost use Rattle.std.specs.Prelude.{◌≡◌, ℕ, ◌+◌, ◌%◌, ◌≤◌, ◌<◌, length, slice_index};
ghost use Rattle.arena_c.specs.Layout.{IsNumbered, numbered_head, numbered_seat};

use bs_batch::{Cell, Head, LargeGame, ManyOrders, ManyStarts, Place, Seat, Settings, SmallGame};
use bs_calls::{SeatOrders, SeatSetup};
use std::mem::size_of;

/// A seat whose fields are all different, numbered from `first` on.
fn numbered_seat(first: u8) -> Seat
    requires { first ≤ 170 }
    ensures { result ≡ numbered_seat first }
{
    Seat {
        parts: u16::from(first) * 256,
        out: u16::from(first) * 256 + 1,
        health: first + 2,
        cause: first + 3,
        killer: first + 4,
        spare: first + 5,
    }
}

/// A head whose fields are all different.
fn numbered_head() -> Head
    ensures { result ≡ numbered_head }
{
    Head {
        settings: Settings {
            mode: 1,
            width: 2,
            height: 3,
            seats: 4,
            min_food: 5,
            chance: 6,
        },
        turn: 1793,
        foods: 2050,
        living: 9,
        over: 10,
        seats: [
            numbered_seat(100),
            numbered_seat(110),
            numbered_seat(120),
            numbered_seat(130),
            numbered_seat(140),
            numbered_seat(150),
            numbered_seat(160),
            numbered_seat(170),
        ],
    }
}

/// Numbers the cells from `first` on.
fn number(cells: &mut [u16], first: u16)
    requires few { length cells.old ≤ 10000 }
    requires low { first ≤ 20000 }
    ensures { (k : ℕ) → k < length cells.new → slice_index cells.new k ≡ first + k }
{
    for (index, cell) in cells.iter_mut().enumerate() {
        *cell = first + index as u16;
    }
}

/// Numbers the bytes from 0 on, modulo 251.
fn number_bytes(cells: &mut [u8])
    ensures { (k : ℕ) → k < length cells.new → slice_index cells.new k ≡ k % 251 }
{
    for (index, cell) in cells.iter_mut().enumerate() {
        *cell = (index % 251) as u8;
    }
}

/// Writes the sizes of the structs, and numbers the fields of both games: those of the head as in
/// the source, food from 10,000 on, planes from 0 on modulo 251, bodies from 20,000 on.
#[unsafe(no_mangle)]
pub extern "C" fn arena_layout(small: &mut SmallGame, large: &mut LargeGame, sizes: &mut [usize])
    ensures small { IsNumbered small.new.head small.new.food small.new.plane small.new.bodies }
    ensures large { IsNumbered large.new.head large.new.food large.new.plane large.new.bodies }
{
    small.head = numbered_head();
    large.head = numbered_head();
    number(&mut small.food, 10_000);
    number(&mut large.food, 10_000);
    number_bytes(&mut small.plane);
    number_bytes(&mut large.plane);
    number(&mut small.bodies, 20_000);
    number(&mut large.bodies, 20_000);
    let all = [
        size_of::<Settings>(),
        size_of::<Seat>(),
        size_of::<Head>(),
        size_of::<SmallGame>(),
        size_of::<LargeGame>(),
        size_of::<Cell>(),
        size_of::<Place>(),
        size_of::<ManyOrders<'_>>(),
        size_of::<ManyStarts<'_>>(),
        size_of::<SeatOrders<'_>>(),
        size_of::<SeatSetup<'_>>(),
    ];
    for (to, size) in sizes.iter_mut().zip(all.as_slice()) {
        *to = *size;
    }
}
