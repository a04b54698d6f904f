// What a heap tells of the entries held.
ghost use Rattle.std.specs.Prelude.{◌≡◌, MatchOption, ◌==◌};
ghost use Rattle.order.specs.Laws.{Lawful, First};

use super::Heap;

impl<'a, T: Ord + Copy> Heap<'a, T> {
    pub fn is_empty(&self) -> bool
        ensures { result ≡ (self.now.len == 0) }
    {
        self.len == 0
    }

    // The lowest entry.
    pub fn first(&self) -> Option<T>
        requires { Lawful T.cmp self.now }
        ensures { MatchOption result (self.now.len ≡ 0) (First T.cmp self.now) }
    {
        self.entries[..self.len].first().copied()
    }
}
