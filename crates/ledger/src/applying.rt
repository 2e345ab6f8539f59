// What an accepted action does to the ledger: a posting leaves it as it is.
ghost use Rattle.std.specs.Prelude.{◌≡◌, false};
ghost use Rattle.rules.specs.Megawatts.{carries_over};
ghost use Rattle.rules.specs.Act.{kind_number, kind_after};
ghost use Rattle.layout.specs.SoundAt.{SoundAt};

use crate::known::Known;
use layout::size::Size;
use rules::Kind;

// By the kind, as the checks.
pub fn apply(known: Known, l: &mut [u32], size: Size)
    requires sound_at { SoundAt l.old size.rows size.hours }
    requires a_value { kind_number size.hours l.old known.request.words.now known.request.action ≡ 0 }
    requires a_value_2 { carries_over size.hours (kind_after size.hours l.old known.request.words.now known.request.action) ≡ false }
    ensures { let asked = known.entry.request in
        l.new ≡ kind_after size.hours l.old asked.words.now asked.action }
{
    let request = known.request;
    match known.kind {
        Kind::Submit => submission::submitting::submit(l, size, request),
        Kind::SellerStatus => seller::status::seller_status(l, size, request),
        Kind::CustomerStatus => customer::customer_status(l, size, request),
        Kind::Approve => provider::approve::approve(l, size, request.action),
        Kind::Reduce => provider::reduce::reduce(l, size, request),
        Kind::Lapse => provider::lapse::lapse(l, size, request.action),
        Kind::Clock => provider::clock::clock(l, request.action),
        Kind::Post => {}
    }
}
