// The types that carry the paper's limits. What the paper itself says is in specs/, as definitions.
#![tactic(auto)]

pub mod numbers; // state, junction and segment numbers, kept apart
pub mod headers; // a chart's counts
pub mod images; // a lift's image, and its place on a board
pub mod items; // a trace item
pub mod refusals; // why a call is refused
