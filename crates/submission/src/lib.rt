// 1 Submit: its checks, and the new row.
#![tactic(auto)]

pub mod checking;
pub mod submitting;
