// The set bits of a word, and the actions of a set that three words hold, lowest first. A type for each: the innermost loops walk
// single words, which have no next word to look for.
ghost use Rattle.std.specs.Prelude.{◌≡◌, ℕ, ◌<◌, ◌||◌, sum, ◌==◌};
ghost use Rattle.std.specs.Iterator.{at_most};
ghost use Rattle.lmcut.specs.Bitwise.{Lowest, Without, BitStep, holds_action, ActionStep};

// Takes the lowest bit out of a word.
fn take_lowest(word: &mut u128) -> usize
    requires { 0 < word.old }
    ensures lowest { Lowest word.old result }
    ensures rest { Without word.old result word.new }
    ensures fewer { word.new < word.old }
{
    let bit = word.trailing_zeros();
    *word &= *word - 1;
    bit as usize
}

#[derive(Clone, Copy)]
pub(crate) struct Bits {
    word: u128,
}

impl Bits {
    pub(crate) fn new(word: u128) -> Bits
        ensures { result.word ≡ word }
    {
        Bits { word }
    }
}

impl Iterator for Bits {
    type Item = usize;

    ghost can_next = { λ _. Unit {0} };

    ghost next_gives = { λ s r t. BitStep s.word r t.word };

    ghost remaining = { λ s. at_most s.word };

    fn next(&mut self) -> Option<usize> {
        if self.word == 0 {
            return None;
        }
        Some(take_lowest(&mut self.word))
    }
}

// Puts an action into the set that three words hold: bit a % 128 of word a / 128 stands for action a.
pub(crate) fn insert(words: &mut [u128; 3], action: usize)
    requires { action < 384 }
    ensures { (a : ℕ) → holds_action words.new a ≡ (holds_action words.old a || a == action) }
{
    words[action / 128] |= 1 << (action % 128);
}

// The actions of a set that three words hold.
#[derive(Clone, Copy)]
pub(crate) struct ActionBits {
    words: [u128; 3],
}

impl ActionBits {
    pub(crate) fn new(words: &[u128; 3]) -> ActionBits
        ensures { result.words ≡ words.now }
    {
        ActionBits { words: *words }
    }
}

impl Iterator for ActionBits {
    type Item = usize;

    ghost can_next = { λ _. Unit {0} };

    ghost next_gives = { λ s r t. ActionStep s.words r t.words };

    ghost remaining = { λ s. at_most (sum s.words) };

    fn next(&mut self) -> Option<usize> {
        // Word by word, and no search for one that is not 0: so the words can stand in registers.
        if self.words[0] != 0 {
            return Some(take_lowest(&mut self.words[0]));
        }
        if self.words[1] != 0 {
            return Some(128 + take_lowest(&mut self.words[1]));
        }
        if self.words[2] != 0 {
            return Some(256 + take_lowest(&mut self.words[2]));
        }
        None
    }
}
