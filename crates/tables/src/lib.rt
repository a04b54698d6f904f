// The flat tables of a simple numeric planning task, as a caller lends them, and the check that accepts or refuses them.
// Every number type is wide enough to hold a wrong number, so that the check, and no reader before it, refuses it.
// Quantities, conditions, moves and links are numbered from 1, facts from 0. The number 0 of a link ends a chain.
#![tactic(auto)]

pub mod check;
pub mod fault;
pub mod kind;

// The head: how many facts (propositions) there are, a word whose bit k says that fact k holds at the start, and the number
// of the first link of the goal chain.
#[derive(Clone, Copy)]
pub struct Head {
    pub facts: u32,
    pub start: u64,
    pub goal: u32,
}

// A quantity: a bounded numeric variable.
#[derive(Clone, Copy)]
pub struct Quantity {
    pub lowest: i32,
    pub highest: i32,
    pub start: i32,
}

// A linear numeric condition: the sum over its chain of terms is at least the bound (kind 0) or more than it (kind 1). The kind
// is a number, since a lent table may hold any; `Sense` is its kind by name.
#[derive(Clone, Copy)]
pub struct Condition {
    pub kind: u32,
    pub bound: i32,
    pub terms: u32,
}

// A move: an action, with its cost and the first links of its preconditions and of its effects.
#[derive(Clone, Copy)]
pub struct Move {
    pub cost: i32,
    pub needs: u32,
    pub effects: u32,
}

// A link of a chain. Kinds: 1 term, 2 fact, 3 condition, 4 sets a fact, 5 clears a fact, 6 changes a quantity; a number, since a
// lent table may hold any, and `LinkKind` by name.
#[derive(Clone, Copy)]
pub struct Link {
    pub kind: u32,
    pub subject: u32,
    pub amount: i32,
    pub next: u32,
}

// What a chain may hold: the terms of a condition, the needs of a move or of the goal, or the effects of a move.
#[derive(Clone, Copy)]
pub enum Role {
    Terms,
    Needs,
    Effects,
}

// The five tables, lent.
#[derive(Clone, Copy)]
pub struct Tables<'a> {
    pub head: Head,
    pub quantities: &'a [Quantity],
    pub conditions: &'a [Condition],
    pub moves: &'a [Move],
    pub links: &'a [Link],
}
