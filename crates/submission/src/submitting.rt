// The new row of a submission.
ghost use Rattle.std.specs.Prelude.{◌≡◌, ◌≤◌, length};
ghost use Rattle.words.specs.Lists.{splice};
ghost use Rattle.rules.specs.Numbers.{row_words, requested_part};
ghost use Rattle.rules.specs.Layout.{set_hours};
ghost use Rattle.rules.specs.Submit.{submit_number, new_words, submit_after};
ghost use Rattle.rules.proofs.Seen.{Room};
ghost use Rattle.layout.specs.SoundAt.{SoundAt};

use checks::request::Request;
use layout::numbers::{
    BID, CUSTOMER, FLAGS, LIMIT, OFFER, PATH, QUEUED, RELATED, REQTYPE, SELLER, START, STATUS,
    STOP, USED,
};
use layout::profile::Profile;
use layout::rows::set_hours;
use layout::size::Size;
use rules::Action;

// Status 1, the actor as customer, the price as bid, the path.
#[tactic(auto, using(crate::proofs::Laws::words_stored), unfolding(rules::specs::Submit::new_words))]
fn write_words(r: &mut [u32], a: Action)
    requires { row_words ≤ length r.old }
    ensures { r.new ≡ splice r.old 0 (new_words a) }
{
    r[REQTYPE] = a.reqtype;
    r[STATUS] = QUEUED;
    r[CUSTOMER] = a.actor;
    r[SELLER] = a.seller;
    r[RELATED] = a.related;
    r[START] = a.start;
    r[STOP] = a.stop;
    r[FLAGS] = a.flags;
    r[BID] = a.price;
    r[OFFER] = 0;
    r[LIMIT] = 0;
    r[PATH] = a.path;
}

// The words, and the profile as requested. The row, which is lent, was 0.
fn write_row(r: &mut [u32], size: Size, a: Action, profile: &[u32])
    requires room { Room size.hours a.start profile.now r.old }
    ensures { r.new ≡ set_hours size.hours requested_part a.start profile.now (splice r.old 0 (new_words a)) }
{
    write_words(r, a);
    set_hours(r, size, Profile::Requested, a.start as usize, profile);
}

// The first unused row is written, and counted; in place, since a function that returns a `&mut` part of a slice gets
// no proof. No submission carries a word over 100,000 (rules.proofs.Over.over_submitting), so there is no check of it.
#[tactic(auto, using(crate::proofs::Laws::accepted), unfolding(rules::specs::Submit::submit_after))]
pub fn submit(l: &mut [u32], size: Size, request: Request)
    requires sound_at { SoundAt l.old size.rows size.hours }
    requires accepted { submit_number size.hours l.old request.words.now request.action ≡ 0 }
    ensures { l.new ≡ submit_after size.hours l.old request.entry.words.now request.entry.action }
{
    let used = l[USED];
    let at = size.row_at(used as usize);
    write_row(
        &mut l[at..at + size.row_words()],
        size,
        request.action,
        request.profile(),
    );
    l[USED] = used + 1;
}
