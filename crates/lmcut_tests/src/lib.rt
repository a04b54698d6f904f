// Tests of LM-cut: its answers and landmark records at small tasks and at the limits, and the buffers that records are written to.
#![tactic(auto)]

#[cfg(test)]
mod cases;
#[cfg(test)]
mod conditions;
#[cfg(test)]
mod examples;
#[cfg(test)]
mod facts;
#[cfg(test)]
mod limits;
