// Requests, the moves between statuses, and the checks that several kinds of action share.
#![tactic(auto)]

pub mod checks;
pub mod moves;
pub mod request;
