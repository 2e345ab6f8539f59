// One hour of a ledger, as a column of its rows: what an accepted action does to it, and what stays true. specs/ and
// proofs/ hold it; there is no code.

#![tactic(auto)]
