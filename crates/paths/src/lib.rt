// Use of a path after an action, from the ledger before it: one walk over the used rows adds it up, hour by hour.
#![tactic(auto)]

pub mod adding;
pub mod change;
pub mod counting;
pub mod exceeding;
pub mod path;
pub mod posting;
