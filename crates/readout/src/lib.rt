// Reading out: the profile in force of a row, and its charge.
#![tactic(auto)]

mod finding;

ghost use Rattle.std.specs.Prelude.{◌≡◌, ◌*◌, ◌≤◌};
ghost use Rattle.words.specs.Lists.{total};
ghost use Rattle.rules.specs.Numbers.{most_hours, most_megawatts, most_price};
ghost use Rattle.rules.specs.Layout.{bid, granted};
ghost use Rattle.rules.specs.ReadOut.{shown, cents as cents_of, charge as charge_of};
ghost use Rattle.rules.specs.Refusals.{number_of, value_of};
ghost use Rattle.layout.specs.Rows.{own};

use finding::find;
use layout::numbers::BID;
use layout::profile::Profile;
use layout::reservation::Reservation;
use rules::Refusal;

// Hours of a day, and half of them.
const DAY: u64 = 24;

const HALF_DAY: u64 = 12;

// The profile in force: that part of the ledger, the span only; empty where the ledger is unsound or has no such
// reference.
pub fn profile_in_force(l: &[u32], reference: u32) -> &[u32]
    ensures { result.now ≡ shown l.now reference }
{
    match find(l, reference) {
        Ok(found) => found.in_force(),
        Err(_) => &l[..0],
    }
}

// MW-hours at cents per MW-day, a half up.
#[tactic(auto, unfolding(rules::specs::ReadOut::cents))]
fn cents(energy: u64, price: u32) -> u64
    requires { (energy ≤ most_hours * most_megawatts) × (price ≤ most_price) }
    ensures { result ≡ cents_of energy price }
{
    (energy * price as u64 + HALF_DAY) / DAY
}

fn cents_of(r: Reservation) -> u64
    ensures { let row = r.entry.row in result ≡ cents_of (total (granted row.size.hours (own row))) (bid (own row)) }
{
    cents(r.total(Profile::Granted), r.row.word(BID))
}

// Charge of a CONFIRMED row, in cents.
pub fn charge(l: &[u32], reference: u32) -> Result<u64, Refusal>
    ensures number { number_of result ≡ (charge_of l.now reference).number }
    ensures amount { value_of result ≡ (charge_of l.now reference).amount }
{
    let found = find(l, reference)?;
    if !found.row.is_confirmed() {
        return Err(Refusal::WrongMove);
    }
    Ok(cents_of(found))
}
