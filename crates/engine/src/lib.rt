// The step engine: a state is run, segments are searched, a block is performed, an event is sent.
#![tactic(auto)]

pub mod path; // the segments that passed
pub mod passing; // whether a segment passes
pub mod turns; // whose turn it is in a run
pub mod cycle; // run, search, block and send, which call each other
pub mod stepping; // a step of a lift
