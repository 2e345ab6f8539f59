// 7 Clock.
ghost use Rattle.std.specs.Prelude.{◌≡◌, ◌≤◌, length};
ghost use Rattle.rules.specs.Numbers.{head_words};
ghost use Rattle.rules.specs.Clock.{bad_time, clock_number, clock_after};
ghost use Rattle.rules.specs.Refusals.{number_of};

use checks::checks::not_provider;
use layout::numbers::{CLOCK, END_SECOND};
use rules::{Action, Refusal};

// Time below now or past 2099.
#[tactic(auto, unfolding(rules::specs::Clock::bad_time))]
fn bad_time(l: &[u32], a: Action) -> bool
    requires { head_words ≤ length l.now }
    ensures { result ≡ bad_time l.now a }
{
    a.time < l[CLOCK] || END_SECOND <= a.time
}

#[tactic(auto, using(rules::proofs::Picks::choice), unfolding(rules::specs::Clock::clock_number))]
pub fn check_clock(l: &[u32], a: Action) -> Result<(), Refusal>
    requires { head_words ≤ length l.now }
    ensures { number_of result ≡ clock_number l.now a }
{
    if not_provider(l, a) {
        return Err(Refusal::WrongParty);
    }
    if bad_time(l, a) {
        return Err(Refusal::WrongTime);
    }
    Ok(())
}

// The clock carries no word over 100,000: law over_clock of proofs/Laws.
#[tactic(auto, unfolding(rules::specs::Clock::clock_after))]
pub fn clock(l: &mut [u32], a: Action)
    requires { head_words ≤ length l.old }
    ensures { l.new ≡ clock_after l.old a }
{
    l[CLOCK] = a.time;
}
