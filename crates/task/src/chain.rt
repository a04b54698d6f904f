// The links of a chain of an accepted task, in order.
ghost use Rattle.std.specs.Prelude.{◌≡◌};
ghost use Rattle.task.specs.Walk.{Walkable, Stepped, steps_left};
ghost use Rattle.std.specs.Iterator.{at_most};

use tables::*;

// Functions that follow a chain say by a clause, `ChainKeeps`, that it keeps the rules of its role. A struct that carried this
// fact would still need the role in each contract, or be one of three structs, each for two functions.
#[derive(Clone, Copy)]
pub struct Chain<'a> {
    links: &'a [Link],
    at: u32,
}

impl<'a> Chain<'a> {
    // The chain whose first link has a number.
    pub fn new(links: &'a [Link], at: u32) -> Chain<'a>
        ensures { (result.links.now ≡ links.now) × (result.at ≡ at) }
    {
        Chain { links, at }
    }
}

impl Iterator for Chain<'_> {
    type Item = Link;

    ghost can_next = { λ s. Walkable s.links.now s.at };

    ghost next_gives = { λ s r t. Stepped s.links.now s.at r t.links.now t.at };

    ghost remaining = { λ s. at_most (steps_left s.links.now s.at) };

    fn next(&mut self) -> Option<Link> {
        // Not by `numbered`: that a walk stays in the table is proved, and a test of it at each link took a third of the time.
        let index = (self.at as usize).checked_sub(1)?;
        let link = self.links[index];
        self.at = link.next;
        Some(link)
    }
}
