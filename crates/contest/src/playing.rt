// The moves of a contest: a challenger's 0 is stop, a holder's 0 is yield.
ghost use Rattle.std.specs.Prelude.{◌≡◌};
ghost use Rattle.rules.specs.Contest.{play as play_of};

use rules::Ending;

// Move by move, from the row's own hours on; challenger and holder are the greatest terms of the two.
pub fn play(challenger: u32, holder: u32, present: u32, moves: &[u32], replies: &[u32]) -> Ending
    ensures { result ≡ play_of challenger holder present moves.now replies.now }
{
    let mut last = present;
    // Replies by place: of an iterator over them an invariant would have to say what it has left.
    for (i, term) in moves.iter().enumerate() {
        let term = *term;
        if term == 0 {
            return Ending::Kept;
        }
        if challenger < term {
            return Ending::Refused;
        }
        if term <= last {
            return Ending::Refused;
        }
        match replies.get(i) {
            None => return Ending::Unfinished,
            Some(0) => return Ending::Lost,
            Some(_) => {}
        }
        if holder < term {
            return Ending::Refused;
        }
        last = term;
    }
    Ending::Unfinished
}
