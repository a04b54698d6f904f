// Why the table check refuses. Every case has a number and a place; `specs/Faults.antt` says which.
ghost use Rattle.std.specs.Prelude.{◌≡◌, Some};
ghost use Rattle.tables.specs.Faults.{number, place, link_number, place_at};
ghost use Rattle.tables.specs.Texts.{fault_text, place_text};

use std::error::Error;
use std::fmt;

// What is wrong with a link, in the order in which a link is looked at.
#[derive(Clone, Copy, PartialEq, Eq, Debug)]
pub enum LinkFault {
    Missing,
    Kind,
    Subject,
    Amount,
    Repeated,
    Next,
}

// A fault in a chain: the number of the link, and what is wrong with it.
#[derive(Clone, Copy, PartialEq, Eq, Debug)]
pub struct ChainFault {
    pub link: u32,
    pub fault: LinkFault,
}

// The tables that have a length, with their numbers; the head is 0.
#[derive(Clone, Copy, PartialEq, Eq, Debug)]
pub enum Table {
    Quantities = 1,
    Conditions = 2,
    Moves = 3,
    Links = 4,
}

// The first fault that the check of a task's tables met.
#[derive(Clone, Copy, PartialEq, Eq, Debug)]
pub enum TaskFault {
    TooManyFacts,
    TooLong(Table),
    StartWord,
    Quantity(u32),
    ConditionKind(u32),
    ConditionBound(u32),
    Terms(u32, ChainFault),
    Cost(u32),
    Needs(u32, ChainFault),
    Effects(u32, ChainFault),
    Goal(ChainFault),
}

// Where a fault stands, in numbers as outputs show it: the table (head 0, quantities 1, conditions 2, moves 3, links 4), the
// record and the link, 0 for none.
#[derive(Clone, Copy, PartialEq, Eq, Debug)]
pub struct Place {
    pub table: u32,
    pub record: u32,
    pub link: u32,
}

impl LinkFault {
    // The number of the rule that a link with the fault breaks. Several faults break one rule, so it is no `From`.
    fn number(self) -> u32
        ensures { result ≡ link_number self }
    {
        match self {
            LinkFault::Missing | LinkFault::Kind | LinkFault::Subject | LinkFault::Next => 3,
            LinkFault::Amount => 4,
            LinkFault::Repeated => 5,
        }
    }
}

impl TaskFault {
    // The number of the broken rule, 1 to 5.
    pub fn number(self) -> u32
        ensures { result ≡ number self }
    {
        match self {
            TaskFault::TooManyFacts | TaskFault::TooLong(_) => 1,
            TaskFault::StartWord | TaskFault::Quantity(_) => 2,
            TaskFault::ConditionKind(_) | TaskFault::ConditionBound(_) | TaskFault::Cost(_) => 4,
            TaskFault::Terms(_, chain)
            | TaskFault::Needs(_, chain)
            | TaskFault::Effects(_, chain)
            | TaskFault::Goal(chain) => chain.fault.number(),
        }
    }

    // Where the fault stands.
    pub fn place(self) -> Place
        ensures { result ≡ place self }
    {
        match self {
            TaskFault::TooManyFacts | TaskFault::StartWord => at(0, 0, 0),
            TaskFault::TooLong(table) => at(table as u32, 0, 0),
            TaskFault::Quantity(q) => at(1, q, 0),
            TaskFault::ConditionKind(c) | TaskFault::ConditionBound(c) => at(2, c, 0),
            TaskFault::Terms(c, chain) => at(2, c, chain.link),
            TaskFault::Cost(m) => at(3, m, 0),
            TaskFault::Needs(m, chain) | TaskFault::Effects(m, chain) => at(3, m, chain.link),
            TaskFault::Goal(chain) => at(0, 0, chain.link),
        }
    }
}

fn at(table: u32, record: u32, link: u32) -> Place
    ensures { result ≡ place_at table «record» link }
{
    Place {
        table,
        record,
        link,
    }
}

impl fmt::Display for TaskFault {
    ghost output = { λ fault. Some (fault_text fault) };

    fn fmt<W: fmt::Write>(&self, f: &mut fmt::Formatter<W>) -> fmt::Result {
        write!(f, "rule {} at {}", self.number(), self.place())
    }
}

impl Error for TaskFault {}

impl fmt::Display for Place {
    ghost output = { λ place. Some (place_text place) };

    fn fmt<W: fmt::Write>(&self, f: &mut fmt::Formatter<W>) -> fmt::Result {
        let Place {
            table,
            record,
            link,
        } = self;
        write!(f, "table {table}, record {record}, link {link}")
    }
}
