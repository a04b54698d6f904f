// The actions that need each node, or that reach it, as words over the actions.
ghost use Rattle.std.specs.Prelude.{◌≡◌, ◌<◌};
ghost use Rattle.lmcut.specs.Marked.{unmarked, Marks, Needing};

use crate::bits::*;

// Marks an action at each node of a word.
fn mark(words: &mut [[u128; 3]; 128], word: u128, action: usize)
    requires { action < 384 }
    ensures { Marks words.old word action words.new }
{
    for node in Bits::new(word) {
        insert(&mut words[node], action);
    }
}

// Marks at each node the actions whose words have it, where none is marked yet.
pub(crate) fn mark_all(needs: &[u128; 257], words: &mut [[u128; 3]; 128])
    requires { words.old ≡ unmarked }
    ensures { Needing needs.now words.new }
{
    for (action, word) in needs.iter().enumerate() {
        mark(words, *word, action);
    }
}
