// A block of the input: the tables that its lines fill, and what it then asks, in order.
ghost use Rattle.std.specs.Prelude.{◌≡◌, true, false, [], ◌∷◌, ◌++◌, is_ok, IfOk, OnErr, if◌then◌else◌};
ghost use Rattle.tables.specs.Problem.{contents};
ghost use Rattle.script.specs.Filled.{filled, asks, added, empty, closes};
ghost use Rattle.script.specs.Lines.{Says};
ghost use Rattle.script.specs.Taken.{Takes, flow_of};
ghost use Rattle.script.specs.declared.directive.Line.{Line};

use crate::directive::*;
use crate::records::*;
use std::alloc::{AllocError, Global};
use std::ops::ControlFlow;
use tables::*;

// The tables are closed once the block asks for their check. `closed` stands beside what is asked, which would have to be searched
// at every line, and tells a block that had no memory to hold its `accept` as closed too.
#[derive(Drop)]
pub struct Block {
    head: Head,
    quantities: Vec<Quantity>,
    conditions: Vec<Condition>,
    moves: Vec<Move>,
    links: Vec<Link>,
    closed: bool,
    asked: Vec<Directive>,
}

impl Block {
    // A block with empty tables that asks nothing.
    pub fn new(heap: Global) -> Block
        ensures tables { (filled result ≡ empty) × (result.closed ≡ false) }
        ensures asked { asks result ≡ [] }
    {
        Block {
            head: Head {
                facts: 0,
                start: 0,
                goal: 0,
            },
            quantities: Vec::new(heap),
            conditions: Vec::new(heap),
            moves: Vec::new(heap),
            links: Vec::new(heap),
            closed: false,
            asked: Vec::new(heap),
        }
    }

    // The tables, lent.
    pub fn tables(&self) -> Tables<'_>
        ensures { contents result ≡ filled self.now }
    {
        Tables {
            head: self.head,
            quantities: self.quantities.as_slice(),
            conditions: self.conditions.as_slice(),
            moves: self.moves.as_slice(),
            links: self.links.as_slice(),
        }
    }

    // What the block asks, lent.
    pub fn asked(&self) -> &[Directive]
        ensures { result.now ≡ asks self.now }
    {
        self.asked.as_slice()
    }

    // Takes in a line, by its number, where `LMCUT` says whether LM-cut is served; breaks off where the line ends the block. Without
    // memory the tables, and what is asked, stay as they were.
    pub fn take<const LMCUT: bool>(
        &mut self,
        heap: Global,
        number: u64,
        bytes: &[u8],
    ) -> Result<ControlFlow<()>, AllocError>
        ensures took { IfOk result (λ flow. (line : Line) × Says LMCUT number bytes.now line × Takes self.old number line self.new × (flow ≡ flow_of line)) }
        ensures failed { OnErr result ((filled self.new ≡ filled self.old) × (asks self.new ≡ asks self.old)) }
    {
        match read_line::<LMCUT>(heap, number, bytes)? {
            Line::Blank => {}
            Line::Fill(record) => self.fill(number, record)?,
            Line::Ask(directive) => self.ask(directive)?,
            Line::End => return Ok(ControlFlow::Break(())),
        }
        Ok(ControlFlow::Continue(()))
    }

    // Takes in a record from a line: into the tables, or, where they are closed, as a malformed line.
    pub fn fill(&mut self, line: u64, record: Record) -> Result<(), AllocError>
        ensures open { self.old.closed ≡ false → (filled self.new ≡ (if is_ok result then added (filled self.old) «record» else filled self.old)) × (self.new.asked ≡ self.old.asked) }
        ensures closed { self.old.closed ≡ true → (filled self.new ≡ filled self.old) × (asks self.new ≡ (if is_ok result then asks self.old ++ Directive.Malformed line ∷ [] else asks self.old)) }
        ensures stays { self.new.closed ≡ self.old.closed }
    {
        if self.closed {
            self.asked.push(Directive::Malformed(line))?;
            return Ok(());
        }
        self.add(record)
    }

    // Puts a record at the end of its table; a head takes the place of the one before. Without memory nothing changes.
    fn add(&mut self, record: Record) -> Result<(), AllocError>
        ensures tables { filled self.new ≡ (if is_ok result then added (filled self.old) «record» else filled self.old) }
        ensures rest { (self.new.asked ≡ self.old.asked) × (self.new.closed ≡ self.old.closed) }
    {
        match record {
            Record::Head(head) => self.head = head,
            Record::Quantity(quantity) => self.quantities.push(quantity)?,
            Record::Condition(condition) => self.conditions.push(condition)?,
            Record::Move(action) => self.moves.push(action)?,
            Record::Link(link) => self.links.push(link)?,
        }
        Ok(())
    }

    // Puts a directive at the end of what the block asks.
    pub fn ask(&mut self, directive: Directive) -> Result<(), AllocError>
        ensures tables { filled self.new ≡ filled self.old }
        ensures asked { asks self.new ≡ (if is_ok result then asks self.old ++ directive ∷ [] else asks self.old) }
        ensures closed { self.new.closed ≡ (if closes directive then true else self.old.closed) }
    {
        if let Directive::Accept = directive {
            self.closed = true;
        }
        self.asked.push(directive)?;
        Ok(())
    }
}
