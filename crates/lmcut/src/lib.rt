// The LM-cut estimator: a lower bound on the cost of every plan from a state of a simple numeric planning task, and the landmark
// records that it comes from.
#![tactic(auto)]

mod bits;
mod charges;
mod choice;
mod effects;
mod entering;
pub mod estimator;
mod graph;
mod landmark;
mod left;
mod marks;
mod needs;
mod node;
mod prepare;
pub mod question;
mod reaches;
mod rounds;
mod spread;
mod standing;
mod values;

// The laws of the rounds, and worked examples of them.
pub use landmarks::{examples_stand, laws_stand, rounds_stand};
