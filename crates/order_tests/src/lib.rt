// Two entry types with orders of their own, and heaps of them.
#![tactic(auto)]

ghost use Rattle.std.specs.Prelude.{◌≡◌, ◌≤◌, ◌⊎◌, MatchOption, length};
ghost use Rattle.order_tests.specs.Fields.{Lowest, Before, Sooner};

pub mod queue;

use order::Heap;

// By `f`, then `h`, then `row`.
#[derive(Clone, Copy, PartialEq, Eq, PartialOrd, Ord)]
pub struct ByThree {
    pub f: u64,
    pub h: u64,
    pub row: u32,
}

// By `value`, then `number`.
#[derive(Clone, Copy, PartialEq, Eq, PartialOrd, Ord)]
pub struct ByTwo {
    pub value: u64,
    pub number: u32,
}

// The lower of two, as a heap of both tells it.
fn lowest_of<T: Ord + Copy>(room: &mut [T], a: T, b: T) -> Option<T>
    requires { 2 ≤ length room.old }
    ensures { MatchOption result ⊥ (Lowest T.cmp a b) }
{
    let mut heap = Heap::new(room);
    let _ = heap.push(a);
    let _ = heap.push(b);
    heap.first()
}

// The lower of two, by their fields.
pub fn lower_of(a: ByTwo, b: ByTwo) -> Option<ByTwo>
    ensures { MatchOption result ⊥ (λ x. ((x ≡ a) ⊎ (x ≡ b)) × Before x a × Before x b) }
{
    lowest_of(&mut [a; 2], a, b)
}

// The same of entries with three fields. Both are the generic one, with what it means in their fields; what the room holds before
// does not count.
pub fn sooner_of(a: ByThree, b: ByThree) -> Option<ByThree>
    ensures { MatchOption result ⊥ (λ x. ((x ≡ a) ⊎ (x ≡ b)) × Sooner x a × Sooner x b) }
{
    lowest_of(&mut [b; 2], a, b)
}

// What stands past the entries held is kept.
pub fn kept(x: u64) -> u64
    ensures { result ≡ x }
{
    let mut room = [1, 2, x];
    let mut heap = Heap::new(&mut room);
    let _ = heap.push(5);
    room[2]
}

#[cfg(test)]
mod holders;
#[cfg(test)]
mod tests;
