// Sample tasks for the tests and the programs: how their tables are written, the pads task, and the walk that programs print.
#![tactic(auto)]

pub mod pads;
pub mod rows;
pub mod said;
pub mod walk;

// What the macro `tables_of` names.
pub use tables::{Condition, Head, Link, Move, Quantity, Tables};
