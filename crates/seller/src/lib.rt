// 2 Seller status, on the words of a ledger that is lent: its checks, whether it would carry a word over 100,000, and
// what it writes.
#![tactic(auto)]

pub mod number;
pub mod offer;
pub mod status;
