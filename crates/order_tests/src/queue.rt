// A struct that holds a heap, with facts of its own on the entries held.
ghost use Rattle.std.specs.Prelude.{◌≡◌, IfSome, MatchBool, MatchOption};
ghost use Rattle.order.specs.Laws.{Lawful, held, Same, First, Popped};
ghost use Rattle.order_tests.specs.Numbered.{orders, Small, Added, Declined, Cleared};
ghost use Rattle.std.specs.List.{All};

use crate::ByTwo;
use order::Heap;

// Like `Heap`, it has no `impl Model`, with which a caller would not learn what the slice holds in the end.
#[derive(Drop)]
pub struct Queue<'a> {
    heap: Heap<'a, ByTwo>,
    ghost lawful: { Lawful orders heap },
    ghost small: { All Small (held heap) },
}

impl<'a> Queue<'a> {
    // An empty queue over the lent slice.
    pub fn new(entries: &'a mut [ByTwo]) -> Queue<'a>
        ensures empty { result.heap.len ≡ 0 }
        ensures lent { result.heap.entries.now ≡ entries.old }
        ensures lender { result.heap.entries.ghost_name ≡ entries.entry.ghost_name }
    {
        Queue {
            heap: Heap::new(entries),
        }
    }

    // Puts in an entry with a small number; false where its number is not small, or where there is no room.
    pub fn add(&mut self, x: ByTwo) -> bool
        ensures lender { self.new.heap.entries.ghost_name ≡ self.old.heap.entries.ghost_name }
        ensures added { MatchBool result (Added self.old.heap x self.new.heap) (Declined self.old.heap x self.new.heap) }
    {
        x.number < 100 && self.heap.push(x).is_ok()
    }

    // Takes out the lowest entry.
    pub fn take(&mut self) -> Option<ByTwo>
        ensures lender { self.new.heap.entries.ghost_name ≡ self.old.heap.entries.ghost_name }
        ensures first { MatchOption result (self.old.heap.len ≡ 0) (First orders self.old.heap) }
        ensures popped { MatchOption result (Same self.old.heap self.new.heap) (λ x. Popped self.old.heap x self.new.heap) }
        ensures small { IfSome result Small }
    {
        self.heap.pop()
    }

    // Takes out every entry, and tells how many there were.
    pub fn clear(&mut self) -> usize
        ensures lender { self.new.heap.entries.ghost_name ≡ self.old.heap.entries.ghost_name }
        ensures count { result ≡ self.old.heap.len }
        ensures cleared { Cleared self.old.heap self.new.heap }
    {
        let count = self.heap.len();
        while let Some(_) = self.heap.pop() {}
        count
    }
}
