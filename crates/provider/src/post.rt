// 8 Posting.
ghost use Rattle.std.specs.Prelude.{◌≡◌, ◌-◌, ◌≤◌, length};
ghost use Rattle.rules.specs.Numbers.{head_words};
ghost use Rattle.rules.specs.Paths.{over_posted};
ghost use Rattle.rules.specs.Checks.{bad_words};
ghost use Rattle.rules.specs.Post.{post_number, posted as postings_after};
ghost use Rattle.rules.specs.Refusals.{number_of};
ghost use Rattle.rules.proofs.Passed.{PostPassed};
ghost use Rattle.paths.specs.Exceeding.{Postings};

use checks::checks::{bad_span, not_provider, span_asked, unknown_path};
use checks::request::Request;
use layout::size::Size;
use paths::exceeding::{Posted, posting_at};
use paths::path::Path;
use paths::posting::exceeds_posting;
use rules::Refusal;

// 7: profile outside its slice, length not stop − start, or a word over 100,000.
fn bad_posting(request: Request) -> bool
    ensures { let a = request.entry.action in result ≡ bad_words request.entry.words.now a (a.stop - a.start) }
{
    request.bad_words(span_asked(request.action))
}

#[tactic(auto, using(rules::proofs::Picks::choice), unfolding(rules::specs::Post::post_number))]
pub fn check_post(l: &[u32], hours: usize, request: Request) -> Result<(), Refusal>
    requires { head_words ≤ length l.now }
    ensures { number_of result ≡ post_number hours l.now request.entry.words.now request.entry.action }
{
    let a = request.action;
    if not_provider(l, a) {
        return Err(Refusal::WrongParty);
    }
    if unknown_path(a) {
        return Err(Refusal::WrongPath);
    }
    if bad_span(hours, a) {
        return Err(Refusal::WrongSpan);
    }
    if bad_posting(request) {
        return Err(Refusal::WrongProfile);
    }
    Ok(())
}

// Whether use of the path would exceed what is posted; the postings are not written for it.
#[tactic(auto, using(rules::proofs::Passed::words_length), unfolding(rules::specs::Post::posted))]
pub fn post_uses(posted: Posted, request: Request) -> bool
    requires { PostPassed posted.ledger.size.hours request.words.now request.action }
    ensures { let hours = posted.entry.ledger.size.hours in
        let a = request.entry.action in
        let after = postings_after hours posted.entry.postings.now request.entry.words.now a in
        result ≡ over_posted hours posted.entry.ledger.words.now after a.path }
{
    let a = request.action;
    exceeds_posting(
        posted,
        Path { number: a.path },
        a.start as usize,
        request.profile(),
    )
}

// The path's postings from start to stop are replaced by the profile.
#[tactic(auto, using(crate::proofs::Laws::posting), unfolding(rules::specs::Post::posted))]
pub fn post(postings: &mut [u32], size: Size, request: Request)
    requires postings { Postings size.hours postings.old }
    requires post_passed { PostPassed size.hours request.words.now request.action }
    ensures { postings.new ≡ postings_after size.hours postings.old request.entry.words.now request.entry.action }
{
    let a = request.action;
    let at = posting_at(size, Path { number: a.path }, a.start as usize);
    let profile = request.profile();
    words::copy(&mut postings[at..at + profile.len()], profile);
}
