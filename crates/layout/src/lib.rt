// A ledger's words: where they lie, creation, soundness, and whether a row is firm.
#![tactic(auto)]

pub mod class;
pub mod create;
pub mod entry;
pub mod ledger;
pub mod numbers;
pub mod profile;
pub mod reservation;
pub mod row;
pub mod rows;
pub mod size;
pub mod sound;
