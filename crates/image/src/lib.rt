// One lift's image: its active bits, history and variables, whether it is accepted, and the fresh one. Past the end of the
// lent bytes stands 0, and nothing is written there.
#![tactic(auto)]

pub mod active; // the active bits
pub mod history; // the recorded children
pub mod variables; // the variables' values
pub mod rest; // places beyond the chart's counts
pub mod shape; // demand 3's shape
pub mod acceptance; // whether an image is accepted
pub mod fresh; // the fresh image
