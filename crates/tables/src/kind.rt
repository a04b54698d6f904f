// The kinds of links and of conditions by name. The tables hold numbers, and a number may name none.
ghost use Rattle.tables.specs.Kinds.{NamesKind, NamesSense};

// What a link says: a term of a condition, a fact or a condition that is needed, or an effect, which sets or clears a fact or
// changes a quantity. `as u32` gives the number that the tables hold.
#[derive(Clone, Copy, PartialEq, Eq, Debug)]
pub enum LinkKind {
    Term = 1,
    Fact = 2,
    Condition = 3,
    Set = 4,
    Clear = 5,
    Change = 6,
}

// How the sum of a condition compares with its bound.
#[derive(Clone, Copy, PartialEq, Eq, Debug)]
pub enum Sense {
    AtLeast = 0,
    MoreThan = 1,
}

// A number that names no kind.
#[derive(Clone, Copy, PartialEq, Eq, Debug)]
pub struct UnknownKind(pub u32);

// Of a link that may hold anything. In a chain of accepted tables each kind is one that the chain allows, so code that walks one
// compares the number with that of a kind, `LinkKind::Set as u32`: reading the kind first took up to four times as long.
impl TryFrom<u32> for LinkKind {
    type Error = UnknownKind;

    ghost try_from_gives = { NamesKind };

    fn try_from(number: u32) -> Result<Self, UnknownKind> {
        match number {
            1 => Ok(LinkKind::Term),
            2 => Ok(LinkKind::Fact),
            3 => Ok(LinkKind::Condition),
            4 => Ok(LinkKind::Set),
            5 => Ok(LinkKind::Clear),
            6 => Ok(LinkKind::Change),
            _ => Err(UnknownKind(number)),
        }
    }
}

impl TryFrom<u32> for Sense {
    type Error = UnknownKind;

    ghost try_from_gives = { NamesSense };

    fn try_from(number: u32) -> Result<Self, UnknownKind> {
        match number {
            0 => Ok(Sense::AtLeast),
            1 => Ok(Sense::MoreThan),
            _ => Err(UnknownKind(number)),
        }
    }
}
