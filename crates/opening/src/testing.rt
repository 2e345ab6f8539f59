// What is tested of the rows of a ledger: their equations, and their trees.
ghost use Rattle.std.specs.Prelude.{◌≡◌, Bool, List, ℕ, ◌+◌, ◌<◌, ◌≤◌, length};
ghost use Rattle.words.specs.Lists.{build};
ghost use Rattle.words.specs.Sums.{Adds};
ghost use Rattle.rules.specs.Layout.{used as used_rows};
ghost use Rattle.rules.specs.Open.{held_of, has_equation, has_tree};
ghost use Rattle.opening.specs.Chains.{draw_link, root_link};
ghost use Rattle.opening.specs.Shares.{nothing_of, drawn_share, most_share, most_sum, Sums};

use crate::links::{link_draws, link_roots, stands};
use crate::sums::{add_held, add_profile};
use layout::class::is_original;
use layout::entry::Entry;
use layout::ledger::Ledger;
use layout::numbers::{NONFIRM_REDIRECT, RELINQUISH, REQTYPE};
use layout::profile::Profile;
use layout::row::Row;

pub trait Test {
    // Of row n of the words l of a ledger of H hours. What the chains need of these the functions promise below, and no
    // law: the proof of one would have to stand in specs.

    // It has one.
    ghost is_tested: { (H : ℕ) (l : List ℕ) (n : ℕ) → Bool };

    // The row that it counts for, as a reference.
    ghost link: { (H : ℕ) (l : List ℕ) (n : ℕ) → ℕ };

    // What it holds itself in hour h, where it does not count for itself; what it counts for another.
    ghost own: { (H : ℕ) (l : List ℕ) (h n : ℕ) → ℕ };

    ghost share: { (H : ℕ) (l : List ℕ) (h n : ℕ) → ℕ };

    fn is_tested(row: Row) -> bool
        ensures { let r = row.entry in result ≡ is_tested r.size.hours r.words.now r.n };

    // The links of all used rows: each counts for itself, for one before it, or for none.
    fn link_rows(links: &mut [u32], ledger: Ledger)
        requires { length links.old ≡ used_rows ledger.words.now }
        ensures links { let l = ledger.entry in
            links.new ≡ build (used_rows l.words.now) (λ n. link l.size.hours l.words.now n) }
        ensures low { let l = ledger.entry in
            (n : ℕ) → n < used_rows l.words.now → link l.size.hours l.words.now n ≤ n + 1 };

    // What it holds itself is added, hour by hour; what it counts for another.

    fn add_own(sums: &mut [u32], entry: Entry)
        requires { Sums entry.ledger.size.hours most_sum sums.old }
        ensures sums { let e = entry.entry in
            Adds (λ h. own e.ledger.size.hours e.ledger.words.now h e.n) sums.old sums.new }
        ensures most { let e = entry.entry in
            let hours = e.ledger.size.hours in
            (h : ℕ) → h < hours → own hours e.ledger.words.now h e.n ≤ most_share };

    fn add_share(sums: &mut [u32], entry: Entry)
        requires { Sums entry.ledger.size.hours most_sum sums.old }
        ensures sums { let e = entry.entry in
            Adds (λ h. share e.ledger.size.hours e.ledger.words.now h e.n) sums.old sums.new }
        ensures most { let e = entry.entry in
            let hours = e.ledger.size.hours in
            (h : ℕ) → h < hours → share hours e.ledger.words.now h e.n ≤ most_share };
}

// The equation of a row that stands and is no relinquish record.
pub struct Equations;

impl Test for Equations {
    ghost is_tested = { has_equation };

    ghost link = { draw_link };

    ghost own = { held_of };

    ghost share = { drawn_share };

    #[tactic(auto, unfolding(rules::specs::Open::has_equation))]
    fn is_tested(row: Row) -> bool {
        stands(row) && row.word(REQTYPE) != RELINQUISH
    }

    #[tactic(auto, using(crate::proofs::Linked::draws_low))]
    fn link_rows(links: &mut [u32], ledger: Ledger) {
        link_draws(links, ledger);
    }

    #[tactic(auto, using(crate::proofs::Added::held_most))]
    fn add_own(sums: &mut [u32], entry: Entry) {
        add_held(sums, entry);
    }

    #[tactic(auto, using(crate::proofs::Added::drawn_most))]
    fn add_share(sums: &mut [u32], entry: Entry) {
        let is_nonfirm_redirect = entry.row().word(REQTYPE) == NONFIRM_REDIRECT;
        if is_nonfirm_redirect {
            add_held(sums, entry);
        } else {
            add_profile(sums, entry, Profile::Granted);
        }
    }
}

// The tree of an original that stands.
pub struct Trees;

impl Test for Trees {
    ghost is_tested = { has_tree };

    ghost link = { root_link };

    ghost own = { nothing_of };

    ghost share = { held_of };

    #[tactic(auto, unfolding(rules::specs::Open::has_tree))]
    fn is_tested(row: Row) -> bool {
        stands(row) && is_original(row.word(REQTYPE))
    }

    #[tactic(auto, using(crate::proofs::Linked::roots_low))]
    fn link_rows(links: &mut [u32], ledger: Ledger) {
        link_roots(links, ledger);
    }

    #[tactic(auto, using(words::proofs::Sums::adds_none))]
    fn add_own(_sums: &mut [u32], _entry: Entry) {}

    #[tactic(auto, using(crate::proofs::Added::held_most))]
    fn add_share(sums: &mut [u32], entry: Entry) {
        add_held(sums, entry);
    }
}
