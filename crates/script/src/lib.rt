// Reads blocks in a text format, runs what they ask on the library and writes the answers. Words become numbers, lines become
// table records and directives, and a block's lines fill its tables and say what it asks, which is then answered.
#![tactic(auto)]

pub mod answer;
pub mod block;
pub mod directive;
pub mod estimators;
pub mod grounds;
pub mod plans;
pub mod records;
pub mod run;
pub mod serve;
pub mod words;
