// A state: which facts hold, and the value of each quantity. In a state of a task, bits from the number of facts up and values
// past the last quantity are 0. The values are an array: a state is copied whole to work out what follows.
#[derive(Clone, Copy, PartialEq, Eq, Debug)]
pub struct State {
    pub facts: u64,
    pub values: [i32; 16],
}
