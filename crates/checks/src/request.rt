// What is asked, with the words lent for its profile, and the row that it names.
ghost use Rattle.std.specs.Prelude.{◌≡◌, true, false, ◌&&◌, ◌+◌, ◌≤◌, length, MatchResult};
ghost use Rattle.rules.specs.Pick.{pick};
ghost use Rattle.rules.specs.Layout.{issued};
ghost use Rattle.rules.specs.Checks.{named, profile, comes as profile_comes, bad_words, bad_profile};
ghost use Rattle.rules.specs.declared.refusal.Refusal.TheVariants.{NoReference};

use layout::ledger::Ledger;
use layout::numbers::MOST_MEGAWATTS;
use layout::reservation::Reservation;
use rules::{Action, Refusal};

// An action, and the words lent for its profile.
#[derive(Clone, Copy)]
pub struct Request<'a> {
    pub action: Action,
    pub words: &'a [u32],
}

// A request on the row that its action names. That its profile suits the row (Suits) is known only after a check of the
// action's kind.
#[derive(Clone, Copy)]
pub struct Named<'a> {
    pub request: Request<'a>,
    pub reservation: Reservation<'a>,
    ghost named: { reservation.row.n ≡ named request.action },
}

impl<'a> Request<'a> {
    // The request on the row that it names, if the reference was issued; else 4.
    pub fn named(self, ledger: Ledger<'a>) -> Result<Named<'a>, Refusal>
        ensures { let asked = self.entry in let l = ledger.entry in
            MatchResult result
            (λ found. (issued l.words.now asked.action.reference ≡ true)
            × (found.request ≡ asked)
            × (found.reservation.row.words.now ≡ l.words.now)
            × (found.reservation.row.size ≡ l.size)
            × (found.reservation.row.n ≡ named asked.action))
            (λ refusal. (refusal ≡ NoReference) × (issued l.words.now asked.action.reference ≡ false)) }
    {
        let reservation = ledger
            .find(self.action.reference)
            .ok_or(Refusal::NoReference)?;
        Ok(Named {
            request: self,
            reservation,
        })
    }

    // Whether a profile comes.
    #[tactic(auto, unfolding(rules::specs::Checks::comes))]
    pub fn comes(self) -> bool
        ensures { result ≡ profile_comes self.entry.action }
    {
        self.action.length != 0
    }

    // The action's profile, of the words lent.
    #[tactic(auto, using(crate::proofs::Profiles::profile_lent))]
    pub fn profile(self) -> &'a [u32]
        requires { self.action.offset + self.action.length ≤ length self.words.now }
        ensures { let asked = self.entry in result.now ≡ profile asked.words.now asked.action }
    {
        let from = self.action.offset as usize;
        &self.words[from..from + self.action.length as usize]
    }

    // The same, or the other if none comes.
    pub fn profile_or(self, other: &'a [u32]) -> &'a [u32]
        requires { profile_comes self.action ≡ true → self.action.offset + self.action.length ≤ length self.words.now }
        ensures { let asked = self.entry in
            result.now ≡ pick (profile_comes asked.action) (profile asked.words.now asked.action) other.now }
    {
        if self.comes() {
            return self.profile();
        }
        other
    }

    // 7: profile outside its slice, length not n, or a word over 100,000.
    #[tactic(auto, using(crate::proofs::Profiles::judged), unfolding(rules::specs::Checks::bad_words))]
    pub fn bad_words(self, n: usize) -> bool
        ensures { let asked = self.entry in result ≡ bad_words asked.words.now asked.action n }
    {
        if self.words.len() < self.action.offset as usize + self.action.length as usize {
            return true;
        }
        if self.action.length as usize != n {
            return true;
        }
        !words::all_within(MOST_MEGAWATTS, self.profile())
    }

    // 7: such a profile, or all 0.
    #[tactic(auto, using(crate::proofs::Profiles::judged), unfolding(rules::specs::Checks::bad_profile))]
    pub fn bad_profile(self, n: usize) -> bool
        ensures { let asked = self.entry in result ≡ bad_profile asked.words.now asked.action n }
    {
        self.bad_words(n) || words::all_zero(self.profile())
    }

    // 7, unless length 0.
    pub fn bad_if_comes(self, n: usize) -> bool
        ensures { let asked = self.entry in
            result ≡ (profile_comes asked.action && bad_profile asked.words.now asked.action n) }
    {
        self.comes() && self.bad_profile(n)
    }
}
