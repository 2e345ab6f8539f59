// Every action: its checks, the ledger and the postings that it leaves, and its answer.
#![tactic(auto)]

pub mod answering;
pub mod applying;
pub mod known;
pub mod numbering;

ghost use Rattle.std.specs.Prelude.{◌≡◌};
ghost use Rattle.rules.specs.Act.{step as step_of, outcome, sound_both};

use checks::request::Request;
use known::Known;
use rules::{Action, Answer};

// An action on a ledger and postings, told whether both are sound: of a list they are tested once. A type that says so
// would hold both as `&mut`, and would have to keep it at each write.
pub fn step(l: &mut [u32], postings: &mut [u32], words: &[u32], sound: bool, a: Action) -> Answer
    requires { sound ≡ sound_both l.old postings.old }
    ensures answer { result ≡ (step_of sound l.old postings.old words.now a).answer }
    ensures ledger { l.new ≡ (step_of sound l.old postings.old words.now a).ledger }
    ensures postings { postings.new ≡ (step_of sound l.old postings.old words.now a).postings }
{
    match numbering::check(&l[..], &postings[..], words, sound, a) {
        Ok(kind) => {
            let request = Request { action: a, words };
            answering::accept(Known { kind, request }, l, postings)
        }
        Err(refusal) => answering::refused(u32::from(refusal)),
    }
}

// An action on any words.
pub fn act(l: &mut [u32], postings: &mut [u32], words: &[u32], a: Action) -> Answer
    ensures answer { result ≡ (outcome l.old postings.old words.now a).answer }
    ensures ledger { l.new ≡ (outcome l.old postings.old words.now a).ledger }
    ensures postings { postings.new ≡ (outcome l.old postings.old words.now a).postings }
{
    let sound = layout::sound::sound_both(&l[..], &postings[..]);
    step(l, postings, words, sound, a)
}
