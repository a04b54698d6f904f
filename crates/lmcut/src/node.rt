// The open nodes of finite value, which wait in a heap.
ghost use Rattle.lmcut.specs.Queued.{orders, Requeued};
ghost use Rattle.order.specs.Laws.{Lawful};

use order::Heap;

// An infinite value. A number and no `Option`: it has to compare as the largest, in offers, in the heap and where the need of
// largest value is chosen, and `None` would be the smallest.
pub(crate) const INFINITE: u64 = u64::MAX;

// A node that waits, by its value and then its number.
#[derive(Clone, Copy, PartialEq, Eq, PartialOrd, Ord)]
pub struct Node {
    pub(crate) value: u64,
    pub(crate) number: usize,
}

// Adds a node to the heap, or lowers it there. The heap has a place for each node, so it takes what it is given.
pub(crate) fn queue(heap: &mut Heap<'_, Node>, number: usize, old: u64, new: u64)
    requires { Lawful orders heap.old }
    ensures lawful { Lawful orders heap.new }
    ensures queued { Requeued heap.old number old new heap.new }
{
    if old == INFINITE {
        let _ = heap.push(Node { value: new, number });
    } else {
        let _ = heap.lower(Node { value: old, number }, Node { value: new, number });
    }
}
