// The lines that fill the tables of a block: `head`, `q`, `c`, `m` and `l`. Each makes its own record, of numbers of its own types;
// what they share is `three`.
ghost use Rattle.std.specs.Prelude.{◌≡◌, pos, negsuc, ◌≤ℤ◌, ◌<ℤ◌, MatchOption, OnSome, IfOk, codes};
ghost use Rattle.script.specs.Lines.{record_word, Written};
ghost use Rattle.script.specs.Unread.{unread};

use crate::words::*;
use tables::*;

// A record for one of the tables.
#[derive(Clone, Copy)]
pub enum Record {
    Head(Head),
    Quantity(Quantity),
    Condition(Condition),
    Move(Move),
    Link(Link),
}

pub(crate) fn read_head(words: Words) -> Result<Record, LineFault>
    ensures { IfOk result (λ r. (record_word r ≡ codes "head") × Written (unread words.entry) r) }
{
    let (facts, start, goal) = words.three()?;
    Ok(Record::Head(Head { facts, start, goal }))
}

pub(crate) fn read_quantity(words: Words) -> Result<Record, LineFault>
    ensures { IfOk result (λ r. (record_word r ≡ codes "q") × Written (unread words.entry) r) }
{
    let (lowest, highest, start) = words.three()?;
    Ok(Record::Quantity(Quantity {
        lowest,
        highest,
        start,
    }))
}

pub(crate) fn read_condition(words: Words) -> Result<Record, LineFault>
    ensures { IfOk result (λ r. (record_word r ≡ codes "c") × Written (unread words.entry) r) }
{
    let (kind, bound, terms) = words.three()?;
    Ok(Record::Condition(Condition { kind, bound, terms }))
}

// The cost field of a written cost, which may be as large as the largest u32. What is past the field is held as the field's
// greatest number: the table check refuses every cost above ten thousand alike.
fn cost_field(written: i64) -> Option<i32>
    ensures fits { negsuc 2147483647 ≤ℤ written → written ≤ℤ pos 2147483647 → MatchOption result ⊥ (λ c. c ≡ written) }
    ensures past { pos 2147483647 <ℤ written → written ≤ℤ pos 4294967295 → MatchOption result ⊥ (λ c. c ≡ pos 2147483647) }
    ensures none { OnSome result ((negsuc 2147483647 ≤ℤ written) × (written ≤ℤ pos 4294967295)) }
{
    if written > i64::from(u32::MAX) {
        return None;
    }
    i32::try_from(written.min(i64::from(i32::MAX))).ok()
}

pub(crate) fn read_move(words: Words) -> Result<Record, LineFault>
    ensures { IfOk result (λ r. (record_word r ≡ codes "m") × Written (unread words.entry) r) }
{
    let (written, needs, effects) = words.three()?;
    let cost = cost_field(written).ok_or(LineFault::Malformed)?;
    Ok(Record::Move(Move {
        cost,
        needs,
        effects,
    }))
}

pub(crate) fn read_link(mut words: Words) -> Result<Record, LineFault>
    ensures { IfOk result (λ r. (record_word r ≡ codes "l") × Written (unread words.entry) r) }
{
    let kind = words.number()?;
    let (subject, amount, next) = words.three()?;
    Ok(Record::Link(Link {
        kind,
        subject,
        amount,
        next,
    }))
}
