// Simple numeric planning tasks over accepted tables: the accepted task, states, moves, plans and the plan check.
#![tactic(auto)]

pub mod accepted;
pub mod chain;
mod checked;
pub mod holds;
pub mod moves;
pub mod plan;
mod records;
pub mod state;
