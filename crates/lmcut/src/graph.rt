// The justification graph of a round: the edges of each action run from its chosen need, or from the ground, to the nodes that it
// reaches, and weigh by what is left of its cost.
ghost use Rattle.std.specs.Prelude.{◌≡◌, ℕ, ◌<◌, Some};
ghost use Rattle.lmcut.specs.Drawn.{marked, Placed};

use crate::left::Left;
use crate::question::Asked;

#[derive(Clone, Copy)]
pub(crate) struct Graph<'r> {
    pub(crate) asked: Asked<'r>,
    pub(crate) left: &'r Left,
    pub(crate) sources: &'r [Option<u8>; 257],
    ghost placed: { Placed asked.question.now sources.now },
}

// Whether the edges of an action with this source run from the ground or from a node of a zone.
pub(crate) fn starts(source: Option<u8>, zone: u128) -> bool
    requires { (n : ℕ) → source ≡ Some n → n < 128 }
    ensures { result ≡ marked zone source }
{
    // A `match`, of which the compiler makes fewer steps than of `is_none_or` or `let .. else`: the innermost loops ask this.
    match source {
        None => true,
        Some(node) => (zone >> node) & 1 == 1,
    }
}
