// Tests of the simplest estimators: with and without the goal, without moves, and at records that are no states.
#![tactic(auto)]

mod tests;
