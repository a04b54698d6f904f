// The pads task: a quantity `pads` from 0 to 20, at 0 at the start. Move 1, big, costs 5 and adds 5; move 2, small, costs 3 and
// adds 2. The goal is at least 7 pads.
ghost use Rattle.std.specs.Prelude.{◌≡◌};
ghost use Rattle.samples.specs.Texts.{name};

use crate::tables_of;
use tables::*;

pub const PADS: Tables<'static> = tables_of! {
    head: (0, 0, 1),
    quantities: [(0, 20, 0)],
    conditions: [(0, 7, 2)],
    moves: [(5, 0, 3), (3, 0, 4)],
    links: [(3, 1, 0, 0), (1, 1, 1, 0), (6, 1, 5, 0), (6, 1, 2, 0)],
};

// The same with 'more than 6'.
pub const MORE_THAN_6: Tables<'static> = Tables {
    conditions: &[Condition {
        kind: 1,
        bound: 6,
        terms: 2,
    }],
    ..PADS
};

pub fn name_of(number: u32) -> &'static str
    ensures { result.now ≡ name number }
{
    if number == 1 { "big" } else { "small" }
}
