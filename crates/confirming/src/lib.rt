// Confirming, on the words of a ledger that is lent: four kinds of action use it.
#![tactic(auto)]

pub mod confirming;
