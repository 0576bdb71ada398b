// Rows taken one after another by a reducer that is a state. The inside of the reducer.
#![tactic(auto)]

pub mod rows;
