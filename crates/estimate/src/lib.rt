// Estimators: lower bounds on the cost of every plan from a state. What an estimator means and owes is in `estimator`; `simple`
// has the three simplest.
#![tactic(auto)]

pub mod estimate;
pub mod estimator;
pub mod simple;
