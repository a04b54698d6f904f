// The table check: accepts the lent tables or tells the first fault met.
ghost use Rattle.std.specs.Prelude.{◌≡◌, ℕ, ◌-◌, ◌^◌, ◌<◌, ◌≤◌, false, length, is_ok, Decides, nat_lt, slice_get, slice_index_or, MatchResult, Option};
ghost use Rattle.tables.specs.Kinds.{kind_number};
ghost use Rattle.tables.specs.Problem.{contents};
ghost use Rattle.tables.specs.declared.fault.TaskFault.{TaskFault};
ghost use Rattle.tables.specs.Check.{told, first_fault, sizes_fault, quantity_keeps, kind_fits, subject_fits, amount_fits, within, in_range, names_quantity, next_fits, link_fault, chain_fault, each_fault, quantity_fault, condition_fault, move_fault, goal_fault, accepted};
ghost use Rattle.tables.specs.Rules.{Keeps};

use crate::fault::*;
use crate::kind::{LinkKind, Sense};
use crate::*;

pub const MOST_FACTS: u32 = 64;

pub const MOST_QUANTITIES: usize = 16;

pub const MOST_CONDITIONS: usize = 64;

pub const MOST_MOVES: usize = 256;

pub const MOST_LINKS: usize = 4096;

// Tables whose counts keep their limits.
#[derive(Clone, Copy)]
struct Bounded<'a> {
    tables: Tables<'a>,
    ghost few_quantities: { length tables.quantities.now ≤ 16 },
    ghost few_conditions: { length tables.conditions.now ≤ 64 },
    ghost few_moves: { length tables.moves.now ≤ 256 },
}

// Whether a word has no bit set from a number up.
pub fn is_below(word: u64, bits: u32) -> bool
    ensures { result ≡ nat_lt word (2 ^ bits) }
{
    bits >= 64 || word >> bits == 0
}

fn is_within(x: i32, limit: u32) -> bool
    ensures { result ≡ within limit x }
{
    x.unsigned_abs() <= limit
}

impl Quantity {
    fn check(&self, number: u32) -> Result<(), TaskFault>
        ensures { result ≡ told (quantity_fault number self.now) }
    {
        if self.keeps_limits() {
            Ok(())
        } else {
            Err(TaskFault::Quantity(number))
        }
    }

    fn keeps_limits(&self) -> bool
        ensures { result ≡ quantity_keeps self.now }
    {
        is_within(self.lowest, 100_000)
            && is_within(self.highest, 100_000)
            && is_within(self.start, 100_000)
            && self.holds(self.start)
    }

    // Whether a value is in the quantity's range.
    pub fn holds(&self, value: i32) -> bool
        ensures { result ≡ in_range self.now value }
    {
        (self.lowest..=self.highest).contains(&value)
    }
}

impl LinkKind {
    // Whether a chain may hold a link of the kind.
    fn fits(self, role: Role) -> bool
        ensures { result ≡ kind_fits role (kind_number self) }
    {
        match role {
            Role::Terms => self == LinkKind::Term,
            Role::Needs => matches!(self, LinkKind::Fact | LinkKind::Condition),
            Role::Effects => matches!(self, LinkKind::Set | LinkKind::Clear | LinkKind::Change),
        }
    }

    fn takes_amount(self, amount: i32) -> bool
        ensures { result ≡ amount_fits (kind_number self) amount }
    {
        match self {
            LinkKind::Term => amount != 0 && is_within(amount, 10),
            LinkKind::Change => amount != 0 && is_within(amount, 200_000),
            _ => true,
        }
    }

    fn names_quantity(self) -> bool
        ensures { result ≡ names_quantity (kind_number self) }
    {
        matches!(self, LinkKind::Term | LinkKind::Change)
    }
}

impl Link {
    // Whether the next of the link with a number is 0 or a later link.
    fn leads_on(&self, at: u32) -> bool
        ensures { result ≡ next_fits at self.now.next }
    {
        self.next == 0 || self.next > at
    }
}

impl<'a> Bounded<'a> {
    fn new(tables: Tables<'a>) -> Result<Bounded<'a>, TaskFault>
        ensures { let fault = sizes_fault (contents tables.entry) in
            MatchResult result (λ bounded. (bounded.tables ≡ tables.entry) × (fault ≡ None)) (λ f. fault ≡ Some f) }
    {
        if tables.head.facts > MOST_FACTS {
            return Err(TaskFault::TooManyFacts);
        }
        if tables.quantities.len() > MOST_QUANTITIES {
            return Err(TaskFault::TooLong(Table::Quantities));
        }
        if tables.conditions.len() > MOST_CONDITIONS {
            return Err(TaskFault::TooLong(Table::Conditions));
        }
        if tables.moves.len() > MOST_MOVES {
            return Err(TaskFault::TooLong(Table::Moves));
        }
        if tables.links.len() > MOST_LINKS {
            return Err(TaskFault::TooLong(Table::Links));
        }
        if !is_below(tables.head.start, tables.head.facts) {
            return Err(TaskFault::StartWord);
        }
        Ok(Bounded { tables })
    }

    // The link with a number.
    fn link_at(&self, number: u32) -> Option<Link>
        requires { 0 < number }
        ensures { result ≡ slice_get (contents self.now.tables).links (number - 1) }
    {
        self.tables.links.get(number as usize - 1).copied()
    }

    // Whether what a link of the kind names exists.
    fn has_subject(&self, kind: LinkKind, subject: u32) -> bool
        ensures { result ≡ subject_fits (contents self.now.tables) (kind_number kind) subject }
    {
        let number = subject as usize;
        match kind {
            LinkKind::Term | LinkKind::Change => (1..=self.tables.quantities.len()).contains(
                &number,
            ),
            LinkKind::Condition => (1..=self.tables.conditions.len()).contains(&number),
            LinkKind::Fact | LinkKind::Set | LinkKind::Clear => subject < self.tables.head.facts,
        }
    }

    // The kind of a link, or its first fault; `seen` has the quantities that the chain named before it.
    fn check_link(
        &self,
        role: Role,
        at: u32,
        link: &Link,
        seen: &[bool; 16],
    ) -> Result<LinkKind, LinkFault>
        ensures { let before = slice_index_or seen.now (link.now.subject - 1) false in
            let fault = link_fault (contents self.now.tables) role before at link.now in
            MatchResult result (λ kind. (kind_number kind ≡ link.now.kind) × (fault ≡ None)) (λ f. fault ≡ Some f) }
    {
        let kind = LinkKind::try_from(link.kind).map_err(|_| LinkFault::Kind)?;
        if !kind.fits(role) {
            return Err(LinkFault::Kind);
        }
        if !self.has_subject(kind, link.subject) {
            return Err(LinkFault::Subject);
        }
        if !kind.takes_amount(link.amount) {
            return Err(LinkFault::Amount);
        }
        if kind.names_quantity() && seen[link.subject as usize - 1] {
            return Err(LinkFault::Repeated);
        }
        if !link.leads_on(at) {
            return Err(LinkFault::Next);
        }
        Ok(kind)
    }

    // The first fault of the chain that begins at a number. No iterator gives the links, since a link is checked before its
    // next is followed.
    fn check_chain(&self, role: Role, first: u32) -> Result<(), ChainFault>
        ensures { result ≡ told (chain_fault (contents self.now.tables) role first) }
    {
        let mut seen = [false; 16];
        let mut at = first;
        while at != 0 {
            let link = self.link_at(at).ok_or(ChainFault {
                link: at,
                fault: LinkFault::Missing,
            })?;
            let kind = self
                .check_link(role, at, &link, &seen)
                .map_err(|fault| ChainFault { link: at, fault })?;
            if kind.names_quantity() {
                seen[link.subject as usize - 1] = true;
            }
            at = link.next;
        }
        Ok(())
    }

    fn check_condition(&self, number: u32, condition: &Condition) -> Result<(), TaskFault>
        ensures { result ≡ told (condition_fault (contents self.now.tables) number condition.now) }
    {
        Sense::try_from(condition.kind).map_err(|_| TaskFault::ConditionKind(number))?;
        if !is_within(condition.bound, 20_000_000) {
            return Err(TaskFault::ConditionBound(number));
        }
        self.check_chain(Role::Terms, condition.terms)
            .map_err(|fault| TaskFault::Terms(number, fault))
    }

    fn check_move(&self, number: u32, action: &Move) -> Result<(), TaskFault>
        ensures { result ≡ told (move_fault (contents self.now.tables) number action.now) }
    {
        if !(0..=10_000).contains(&action.cost) {
            return Err(TaskFault::Cost(number));
        }
        self.check_chain(Role::Needs, action.needs)
            .map_err(|fault| TaskFault::Needs(number, fault))?;
        self.check_chain(Role::Effects, action.effects)
            .map_err(|fault| TaskFault::Effects(number, fault))
    }

    fn check_goal(&self) -> Result<(), TaskFault>
        ensures { result ≡ told (goal_fault (contents self.now.tables)) }
    {
        self.check_chain(Role::Needs, self.tables.head.goal)
            .map_err(TaskFault::Goal)
    }
}

// The first fault of a table's records, numbered from 1, by the check of one of them.
fn check_each<T, F: Fn(u32, &T) -> Result<(), TaskFault>>(
    records: &[T],
    check: F,
) -> Result<(), TaskFault>
    requires few { length records.now ≤ 256 }
    requires callable { F.IsAlwaysCallable check }
    ensures { (fault : ℕ → T → Option TaskFault)
        → ((k : ℕ) (x : _) (r : _) → F.post check k x r → r ≡ told (fault k x.now))
        → result ≡ told (each_fault fault 1 records.now) }
{
    for (number, record) in (1..).zip(records) {
        check(number, record)?;
    }
    Ok(())
}

impl Tables<'_> {
    // Accepts the tables, or tells the first fault met. Alters nothing.
    pub fn check(&self) -> Result<(), TaskFault>
        ensures told { result ≡ told (first_fault (contents self.now)) }
        ensures accepts { is_ok result ≡ accepted (contents self.now) }
        ensures exact { Decides (is_ok result) (Keeps (contents self.now)) }
    {
        let bounded = Bounded::new(*self)?;
        check_each(self.quantities, |number, quantity| quantity.check(number))?;
        check_each(
            self.conditions,
            |number, condition| bounded.check_condition(number, condition),
        )?;
        check_each(
            self.moves,
            |number, action| bounded.check_move(number, action),
        )?;
        bounded.check_goal()
    }
}
