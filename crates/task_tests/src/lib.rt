// Tests of the libraries of tables and tasks: the table check with its numbers and places, limits on both sides, moves and the plan check.
#![tactic(auto)]

mod answers;
mod checks;
mod plans;
