// What moves megawatts, apart from confirming, on the words of a ledger that is lent: taking, giving back, displacing,
// annulling, reducing.
#![tactic(auto)]

pub mod giving;
pub mod moving;
pub mod reading;
