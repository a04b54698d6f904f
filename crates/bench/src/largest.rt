// A task with the largest tables.
ghost use Rattle.std.specs.Prelude.{◌<◌};

use samples::rows::*;
use std::array;
use tables::*;

pub(crate) const HEAD: Head = Head {
    facts: 64,
    start: 1,
    goal: 1153,
};

// Sixteen quantities from 0 to 1,000 at 0.
pub(crate) static SIXTEEN: [Quantity; 16] = [Quantity {
    lowest: 0,
    highest: 1000,
    start: 0,
}; 16];

// Condition c asks a sum of two quantities to be at least a bound that grows with c; its terms are the links from 1,025 + 2 c.
pub(crate) fn conditions() -> [Condition; 64] {
    array::from_fn(|c| condition(0, 20 + (c % 50) as i32, 1025 + 2 * c as u32))
}

// Move m needs a fact and a condition, the links 4 m + 1 and 4 m + 2, or only the fact; its effects are the next two.
pub(crate) fn moves() -> [Move; 256] {
    array::from_fn(|m| action(1 + (m % 9) as i32, 4 * m as u32 + 1, 4 * m as u32 + 3))
}

// The links: four for each move, two for each condition, the goal's three, and no more.
pub(crate) fn links() -> [Link; 4096] {
    array::from_fn(|at| match at as u32 {
        at @ 0..=1023 => link_of_move(at / 4, at % 4),
        at @ 1024..=1151 => link_of_condition((at - 1024) / 2, at % 2),
        1152 => link(2, 63, 0, 1154),
        1153 => link(3, 32, 0, 1155),
        1154 => link(3, 64, 0, 0),
        _ => link(0, 0, 0, 0),
    })
}

// A link of move m: it needs fact m mod 64, and each third move a condition too; it sets the next fact and adds to a quantity.
fn link_of_move(m: u32, place: u32) -> Link
    requires { m < 256 }
{
    match place {
        0 => link(2, m % 64, 0, if m % 3 == 0 { 4 * m + 2 } else { 0 }),
        1 => link(3, m % 64 + 1, 0, 0),
        2 => link(4, (m + 1) % 64, 0, 4 * m + 4),
        _ => link(6, m % 16 + 1, 1 + (m % 7) as i32, 0),
    }
}

// A term of condition c, one of two quantities, with weights from 1 to 10.
fn link_of_condition(c: u32, place: u32) -> Link
    requires { c < 64 }
{
    match place {
        0 => link(1, c % 16 + 1, 1 + (c % 10) as i32, 1026 + 2 * c),
        _ => link(1, (c + 5) % 16 + 1, 1 + (c % 3) as i32, 0),
    }
}
