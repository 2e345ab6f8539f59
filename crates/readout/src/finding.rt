// The row of a reference of a sound ledger.
ghost use Rattle.readout.specs.Found.{Finds};

use layout::ledger::Ledger;
use layout::reservation::Reservation;
use rules::Refusal;

pub fn find(l: &[u32], reference: u32) -> Result<Reservation<'_>, Refusal>
    ensures { Finds l.now reference result }
{
    let Some(ledger) = Ledger::of(l) else {
        return Err(Refusal::Unsound);
    };
    let Some(found) = ledger.find(reference) else {
        return Err(Refusal::NoReference);
    };
    Ok(found)
}
