// An estimator's answer: every plan from the state costs at least a number, or there is none. `specs/Estimates.antt` says what
// each case claims. In the order of the cases 'dead' is above every number, so that the larger of two answers claims more.
// It is no `Option`: 'dead' makes a claim of its own, that there is no plan, and is no number that is missing.
#[derive(Clone, Copy, PartialEq, Eq, PartialOrd, Ord, Debug)]
pub enum Estimate {
    AtLeast(u64),
    Dead,
}
