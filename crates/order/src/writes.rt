// What changes the entries held.
ghost use Rattle.std.specs.Prelude.{◌≡◌, MatchBool, MatchOption, MatchResult};
ghost use Rattle.order.specs.Laws.{Lawful, Same, First, Pushed, Refused, Popped, Lacks, Found, Lowered, Unmet};

use super::Heap;
use super::sift::{sift_down, sift_up};

impl<'a, T: Ord + Copy> Heap<'a, T> {
    // Adds an entry, or gives it back where there is no room.
    pub fn push(&mut self, x: T) -> Result<(), T>
        requires { Lawful T.cmp self.old }
        ensures lender { self.new.entries.ghost_name ≡ self.old.entries.ghost_name }
        ensures lawful { Lawful T.cmp self.new }
        ensures pushed { MatchResult result (λ _. Pushed self.old x self.new) (λ y. Refused self.old x y self.new) }
    {
        let Heap { entries, len } = self;
        if *len == entries.len() {
            return Err(x);
        }
        entries[*len] = x;
        sift_up(entries, *len);
        *len += 1;
        Ok(())
    }

    // Takes out the lowest entry.
    pub fn pop(&mut self) -> Option<T>
        requires { Lawful T.cmp self.old }
        ensures lender { self.new.entries.ghost_name ≡ self.old.entries.ghost_name }
        ensures lawful { Lawful T.cmp self.new }
        ensures first { MatchOption result (self.old.len ≡ 0) (First T.cmp self.old) }
        ensures popped { MatchOption result (Same self.old self.new) (λ x. Popped self.old x self.new) }
    {
        let first = self.first()?;
        let Heap { entries, len } = self;
        *len -= 1;
        entries.swap(0, *len);
        sift_down(entries, *len);
        Some(first)
    }

    // Puts `new`, which is not above `old`, in the place of an entry tied with `old`.
    pub fn lower(&mut self, old: T, new: T) -> bool
        requires { Lawful T.cmp self.old }
        ensures lender { self.new.entries.ghost_name ≡ self.old.entries.ghost_name }
        ensures lawful { Lawful T.cmp self.new }
        ensures lowered { MatchBool result (Lowered T.cmp self.old old new self.new) (Unmet T.cmp self.old old new × Same self.old self.new) }
    {
        if old < new {
            return false;
        }
        let Some(found) = self.place(old) else {
            return false;
        };
        let Heap { entries, .. } = self;
        entries[found] = new;
        sift_up(entries, found);
        true
    }

    // The place of an entry tied with `x`.
    fn place(&self, x: T) -> Option<usize>
        requires { Lawful T.cmp self.now }
        ensures { MatchOption result (Lacks T.cmp self.now x) (Found T.cmp self.now x) }
    {
        self.entries[..self.len]
            .iter()
            .position(|entry| *entry == x)
    }
}
