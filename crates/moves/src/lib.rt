// Leaving, entering, and firing a path.
#![tactic(auto)]

pub mod leaving; // a state and all below it is left
pub mod entering; // a state and what is to be active below it is entered
pub mod arena; // where a path is fired
pub mod firing; // leave, perform the path's transition actions, enter
