// The provider's own actions on a sound ledger: approve, reduce, lapse, clock, post. Each has its checks and what
// it writes.
#![tactic(auto)]

pub mod approve;
pub mod clock;
pub mod lapse;
pub mod post;
pub mod reduce;
pub mod waiting;
