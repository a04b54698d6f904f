// Tables from rows of numbers, each in the order of its record's fields. Kinds are numbers here too: tests write wrong ones.
ghost use Rattle.std.specs.Prelude.{◌≡◌};

use tables::*;

pub fn quantity(lowest: i32, highest: i32, start: i32) -> Quantity
    ensures { result ≡ record { lowest = lowest; highest = highest; start = start } }
{
    Quantity {
        lowest,
        highest,
        start,
    }
}

pub fn condition(kind: u32, bound: i32, terms: u32) -> Condition
    ensures { result ≡ record { kind = kind; bound = bound; terms = terms } }
{
    Condition { kind, bound, terms }
}

pub fn action(cost: i32, needs: u32, effects: u32) -> Move
    ensures { result ≡ record { cost = cost; needs = needs; effects = effects } }
{
    Move {
        cost,
        needs,
        effects,
    }
}

pub fn link(kind: u32, subject: u32, amount: i32, next: u32) -> Link
    ensures { result ≡ record { kind = kind; subject = subject; amount = amount; next = next } }
{
    Link {
        kind,
        subject,
        amount,
        next,
    }
}

// The tables of a task, from rows. A macro, and not a function: the value of a constant calls no function.
#[macro_export]
macro_rules! tables_of {
    (
        head: ($facts:expr, $start:expr, $goal:expr),
        quantities: [$(($lowest:expr, $highest:expr, $begin:expr)),* $(,)?],
        conditions: [$(($compares:expr, $bound:expr, $terms:expr)),* $(,)?],
        moves: [$(($cost:expr, $needs:expr, $effects:expr)),* $(,)?],
        links: [$(($kind:expr, $subject:expr, $amount:expr, $next:expr)),* $(,)?] $(,)?
    ) => {
        $crate::Tables {
            head: $crate::Head { facts: $facts, start: $start, goal: $goal },
            quantities: &[$($crate::Quantity { lowest: $lowest, highest: $highest, start: $begin }),*],
            conditions: &[$($crate::Condition { kind: $compares, bound: $bound, terms: $terms }),*],
            moves: &[$($crate::Move { cost: $cost, needs: $needs, effects: $effects }),*],
            links: &[$($crate::Link { kind: $kind, subject: $subject, amount: $amount, next: $next }),*],
        }
    };
}
