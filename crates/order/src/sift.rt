// The two ways an entry of a heap finds its place: it rises by halves of its index, or sinks by doubles, so each is a `while`.
// Entries are read before they are compared: behind references a second field would be read on a tie alone, which is a branch.
ghost use Rattle.std.specs.Prelude.{◌≡◌, ◌+◌, ◌*◌, ◌<◌, ◌≤◌, length};
ghost use Rattle.order.specs.Shape.{Child, LowerChild, Raised, Sunk};

// Raises the entry at `from` until its parent is not above it.
pub(super) fn sift_up<T: Ord + Copy>(entries: &mut [T], from: usize)
    requires { from < length entries.old }
    ensures len { length entries.new ≡ length entries.old }
    ensures raised { Raised T.cmp entries.old from entries.new }
{
    let mut at = from;
    while 0 < at {
        let parent = (at - 1) / 2;
        let (entry, above) = (entries[at], entries[parent]);
        if entry >= above {
            return;
        }
        entries.swap(parent, at);
        at = parent;
    }
}

// The lower of the children of the entry at `at`, among the first `len`.
fn lower_child<T: Ord + Copy>(entries: &[T], at: usize, len: usize) -> usize
    requires { (at * 2 + 1 < len) × (len ≤ length entries.now) }
    ensures child { Child at result × (result < len) }
    ensures lowest { LowerChild T.cmp entries.now at result len }
{
    let left = at * 2 + 1;
    let right = left + 1;
    if right == len {
        return left;
    }
    let (later, earlier) = (entries[right], entries[left]);
    if later < earlier { right } else { left }
}

// Lowers the first entry among the first `len` until no child is below it.
pub(super) fn sift_down<T: Ord + Copy>(entries: &mut [T], len: usize)
    requires { len ≤ length entries.old }
    ensures len { length entries.new ≡ length entries.old }
    ensures sunk { Sunk T.cmp entries.old len entries.new }
{
    let mut at = 0;
    while at < len / 2 {
        let child = lower_child(entries, at, len);
        let (below, entry) = (entries[child], entries[at]);
        if below >= entry {
            return;
        }
        entries.swap(at, child);
        at = child;
    }
}
