// A binary min-heap over a lent slice, for entries of any type that has a total order.
// Its contracts say which entries are held, and that what is told or taken is at most each of them.
#![tactic(auto)]

ghost use Rattle.std.specs.Prelude.{◌≡◌};
ghost use Rattle.order.specs.Laws.{Lawful};

mod reads;
mod sift;
mod writes;

// The first `len` of `entries` are held, each at most its children. The slice is lent: nothing is allocated.
// That it is so, `Lawful`, stands in the clauses and not in the type: a ghost field would want a bound on `T`, and then no struct
// of a type parameter could hold a heap of pairs. A struct of a known entry type has it as a ghost field of its own.
// It has no `impl Model`, with which a caller would not learn what the slice holds once the heap is let go.
#[derive(Drop)]
pub struct Heap<'a, T> {
    entries: &'a mut [T],
    len: usize,
}

impl<'a, T: Ord + Copy> Heap<'a, T> {
    // An empty heap, which has room for as many entries as the slice has.
    pub fn new(entries: &'a mut [T]) -> Heap<'a, T>
        ensures empty { result.len ≡ 0 }
        ensures lent { result.entries.now ≡ entries.old }
        ensures lawful { Lawful T.cmp result }
        ensures lender { result.entries.ghost_name ≡ entries.entry.ghost_name }
    {
        Heap { entries, len: 0 }
    }

    pub fn len(&self) -> usize
        ensures { result ≡ self.now.len }
    {
        self.len
    }
}
