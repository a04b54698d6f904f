// The words of a line, read one after another. Words are parted by white space.
ghost use Rattle.std.specs.Prelude.{◌≡◌, is_ok, Decides, MatchOption, IfOk, alloc_error};
ghost use Rattle.script.specs.Lines.{Field, Three, Moves};
ghost use Rattle.script.specs.Unread.{unread, Blank, Next, More, MalformedWhere, ReadsNext};
ghost use Rattle.script.specs.declared.words.LineFault.TheVariants.{NoMemory};

use std::alloc::{AllocError, AllocFailed, Global};
use std::str::{FromStr, SplitWhitespace};

// Why a line is not read: it is malformed, or there is no memory to hold it.
#[derive(Drop)]
pub enum LineFault {
    Malformed,
    NoMemory(AllocError),
}

impl From<AllocError> for LineFault {
    ghost from_gives = { λ error fault. fault ≡ NoMemory error };

    fn from(error: AllocError) -> LineFault {
        LineFault::NoMemory(error)
    }
}

impl<T: Drop> From<AllocFailed<T>> for LineFault {
    ghost from_gives = { λ failed fault. fault ≡ NoMemory alloc_error };

    fn from(failed: AllocFailed<T>) -> LineFault {
        LineFault::NoMemory(failed.into())
    }
}

#[derive(Drop)]
pub struct Words<'a> {
    rest: SplitWhitespace<'a>,
}

impl<'a> Words<'a> {
    pub fn new(line: &'a str) -> Words<'a>
        ensures { unread result ≡ line.now }
    {
        Words {
            rest: line.split_whitespace(),
        }
    }

    // The next word, if there is one.
    pub fn word(&mut self) -> Option<&'a str>
        ensures { MatchOption result (Blank (unread self.old)) (λ w. Next (unread self.old) w.now (unread self.new)) }
    {
        self.rest.next()
    }

    // The next word as a number, or as what else its type reads in a word. A word that is missing, is no number or does not fit
    // the type is malformed.
    pub fn number<N: FromStr>(&mut self) -> Result<N, LineFault>
    where
        N::Err: Drop,
        ensures { ReadsNext N.FromStr.from_str_gives (unread self.old) (unread self.new) result }
    {
        let word = self.word().ok_or(LineFault::Malformed)?;
        word.parse().map_err(|_| LineFault::Malformed)
    }

    // The rest of the words as three numbers.
    pub(crate) fn three<A: FromStr + Copy, B: FromStr + Copy, C: FromStr + Copy>(
        mut self,
    ) -> Result<(A, B, C), LineFault>
    where
        A::Err: Drop,
        B::Err: Drop,
        C::Err: Drop,
        ensures { IfOk result (λ x. Three (Field A.FromStr.from_str_gives) (Field B.FromStr.from_str_gives) (Field C.FromStr.from_str_gives) (unread self.entry) x.0 x.1 x.2) }
    {
        let three = (self.number()?, self.number()?, self.number()?);
        self.finish()?;
        Ok(three)
    }

    // The rest of the words as numbers, as many as there are.
    pub(crate) fn numbers(self, heap: Global) -> Result<Vec<u32>, LineFault>
        ensures { IfOk result (λ list. Moves (unread self.entry) list.items) }
    {
        let mut list = Vec::new(heap);
        for word in self.rest {
            list.push(word.parse().map_err(|_| LineFault::Malformed)?)?;
        }
        Ok(list)
    }

    // Passes exactly where no word is left; a line with one more is malformed.
    pub fn finish(mut self) -> Result<(), LineFault>
        ensures exact { Decides (is_ok result) (Blank (unread self.entry)) }
        ensures refused { MalformedWhere result (More (unread self.entry)) }
    {
        match self.word() {
            None => Ok(()),
            Some(_) => Err(LineFault::Malformed),
        }
    }
}
