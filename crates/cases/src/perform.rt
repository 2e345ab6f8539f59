// A line carried out on the words that are lent.
use crate::lent::Lent;
use crate::report::Unfit;
use crate::text::{Line, MOST_NUMBERS, exactly};
use crate::{ask, look};
use layout::create::Creation;
use layout::numbers::DISPLACED;
use rules::{Action, Answer, Contest, Kind, number_of};
use std::alloc::{AllocError, Global};

// The longest ledger and the longest postings that are lent.
const LEDGER_WORDS: usize = 24576;

const POSTINGS_WORDS: usize = 49152;

// A charge is shown as its millions of cents and the rest.
const MILLION: u64 = 1000000;

// What a line gives: the answer to an action or a contest, or the numbers of another line.
#[derive(Drop)]
pub enum Shown {
    Answer(Answer),
    Numbers(Vec<u32>),
}

impl Shown {
    pub fn into_numbers(self, alloc: Global) -> Result<Vec<u32>, AllocError> {
        match self {
            Shown::Answer(
                Answer {
                    number,
                    reference,
                    before,
                    after,
                    moved,
                },
            ) => Ok(vec![in alloc; number, reference, before, after, moved]?),
            Shown::Numbers(numbers) => Ok(numbers),
        }
    }
}

// What a call may have altered.
#[derive(Clone, Copy)]
enum MayAlter {
    Nothing,
    Ledger,
    Postings,
}

// The ledger and the postings.
#[derive(Drop)]
pub struct Desk {
    ledger: Lent,
    postings: Lent,
}

impl Desk {
    pub fn new(alloc: Global) -> Result<Desk, AllocError> {
        Ok(Desk {
            ledger: Lent::new(alloc, LEDGER_WORDS)?,
            postings: Lent::new(alloc, POSTINGS_WORDS)?,
        })
    }

    pub fn perform(&mut self, alloc: Global, line: &Line) -> Result<Shown, Unfit> {
        if let Some(action) = ask::action_asked(line)? {
            let answer = self.act(action, &line.profile)?;
            return Ok(Shown::Answer(answer));
        }
        match line.verb {
            "contest" => {
                let answer = self.contest(&line.fields, &line.profile)?;
                Ok(Shown::Answer(answer))
            }
            "postings" => {
                self.lend_postings(&line.fields, &line.expected)?;
                Ok(Shown::Numbers(Vec::new(alloc)))
            }
            verb if line.profile.is_empty() => {
                let numbers = self.numbers(alloc, verb, &line.fields)?;
                Ok(Shown::Numbers(numbers))
            }
            _ => Err(Unfit::Unreadable),
        }
    }

    // What the lines that are no action and no contest give. They have no profile.
    fn numbers(&mut self, alloc: Global, verb: &str, fields: &[u32]) -> Result<Vec<u32>, Unfit> {
        let mut numbers = Vec::new(alloc);
        match verb {
            "room" => self.lend_ledger(fields)?,
            "create" => numbers.push(self.create(fields)?)?,
            "spoil-head" => self.spoil_head(fields)?,
            "spoil-row" => self.spoil_row(fields)?,
            "spoil-posting" => self.spoil_posting(fields)?,
            "open" => numbers.push(self.open(fields)?)?,
            "annuls" => numbers.push(u32::from(self.annuls(fields)))?,
            "charge" => numbers.extend_from_slice(&self.charge(fields)?)?,
            "altered" => numbers.push(self.ledger.altered())?,
            "altered-postings" => numbers.push(self.postings.altered())?,
            _ => numbers.extend_from_slice(self.words_named(verb, fields)?)?,
        }
        Ok(numbers)
    }

    // A length for the ledger.
    fn lend_ledger(&mut self, fields: &[u32]) -> Result<(), Unfit> {
        let [count] = exactly::<1>(fields)?;
        self.ledger.lend(count).ok_or(Unfit::LongLedger)?;
        Ok(())
    }

    // A length for the postings, and what each of them becomes.
    fn lend_postings(&mut self, fields: &[u32], expected: &[u32]) -> Result<(), Unfit> {
        let ([count, megawatts], []) = (fields, expected) else {
            return Err(Unfit::Unreadable);
        };
        let postings = self.postings.lend(*count).ok_or(Unfit::LongPostings)?;
        postings.fill(*megawatts);
        Ok(())
    }

    fn keep_copies(&mut self) {
        self.ledger.keep_copy();
        self.postings.keep_copy();
    }

    // All words are as their copies, but for those that may have been altered.
    fn check_copies(&self, may_alter: MayAlter) -> Result<(), Unfit> {
        let is_kept = match may_alter {
            MayAlter::Nothing => self.ledger.is_unaltered() && self.postings.is_unaltered(),
            MayAlter::Ledger => self.postings.is_unaltered(),
            MayAlter::Postings => self.ledger.is_unaltered(),
        };
        if is_kept { Ok(()) } else { Err(Unfit::Altered) }
    }

    // A refusal must alter nothing. The postings are no part of it.
    fn create(&mut self, fields: &[u32]) -> Result<u32, Unfit> {
        let [rows, hours, provider, window, base] = exactly::<5>(fields)?;
        self.ledger.keep_copy();
        let ledger = self.ledger.words_mut();
        let new = Creation {
            rows,
            hours,
            provider,
            window,
            base,
        };
        let created = layout::create::create(ledger, new);
        if created.is_err() && !self.ledger.is_unaltered() {
            return Err(Unfit::Altered);
        }
        Ok(number_of(created))
    }

    fn answer_action(&mut self, action: Action, profile: &[u32]) -> Answer {
        let ledger = self.ledger.words_mut();
        let postings = self.postings.words_mut();
        ledger::act(ledger, postings, profile, action)
    }

    // A refusal must alter nothing, a posting no word of the ledger, and any other action no posting.
    fn act(&mut self, action: Action, profile: &[u32]) -> Result<Answer, Unfit> {
        self.keep_copies();
        let answer = self.answer_action(action, profile);
        self.check_copies(match (answer.number, Kind::try_from(action.kind)) {
            (0, Ok(Kind::Post)) => MayAlter::Postings,
            (0, _) => MayAlter::Ledger,
            _ => MayAlter::Nothing,
        })?;
        Ok(answer)
    }

    fn answer_contest(&mut self, terms: Contest, moves: &[u32], replies: &[u32]) -> Answer {
        let ledger = self.ledger.words_mut();
        contest::run_contest(ledger, self.postings.words(), terms, moves, replies)
    }

    // Only a row lost may alter the ledger, and no contest a posting.
    fn contest(&mut self, fields: &[u32], replies: &[u32]) -> Result<Answer, Unfit> {
        let &[actor, reference, challenger, holder, ref moves @ ..] = fields else {
            return Err(Unfit::Unreadable);
        };
        let terms = Contest {
            actor,
            reference,
            challenger,
            holder,
        };
        self.keep_copies();
        let answer = self.answer_contest(terms, moves, replies);
        self.check_copies(match answer.after {
            DISPLACED => MayAlter::Ledger,
            _ => MayAlter::Nothing,
        })?;
        Ok(answer)
    }

    // The number that opening gives.
    fn open(&self, fields: &[u32]) -> Result<u32, Unfit> {
        if !fields.is_empty() {
            return Err(Unfit::Unreadable);
        }
        Ok(number_of(opening::check_open(self.ledger.words())))
    }

    // Whether the annulments of the references, one after another, are all accepted.
    fn annuls(&self, references: &[u32]) -> bool {
        unwinding::annuls_in_order(self.ledger.words(), self.postings.words(), references)
    }

    // The number of the charge of a row, its millions of cents and the cents beyond them.
    fn charge(&self, fields: &[u32]) -> Result<[u32; 3], Unfit> {
        let [reference] = exactly::<1>(fields)?;
        let charged = readout::charge(self.ledger.words(), reference);
        let cents = charged.unwrap_or(0);
        let millions = cents / MILLION % (1 << 32);
        Ok([
            number_of(charged),
            millions as u32,
            (cents % MILLION) as u32,
        ])
    }

    // The profile in force of a row.
    fn profile_in_force(&self, reference: u32) -> &[u32] {
        readout::profile_in_force(self.ledger.words(), reference)
    }

    // The words of the ledger, or the postings, that a line names, where a line can have so many.
    fn words_named(&self, verb: &str, fields: &[u32]) -> Result<&[u32], Unfit> {
        let ledger = self.ledger.words();
        let words = match (verb, fields) {
            ("profile", [reference]) => Some(self.profile_in_force(*reference)),
            ("posted", [path]) => look::postings_of(ledger, self.postings.words(), *path),
            _ => look::words_named(ledger, verb, fields),
        };
        match words {
            Some(words) if words.len() <= MOST_NUMBERS => Ok(words),
            _ => Err(Unfit::Unreadable),
        }
    }

    // place in the head, word
    fn spoil_head(&mut self, fields: &[u32]) -> Result<(), Unfit> {
        let [place, word] = exactly::<2>(fields)?;
        spoil(self.ledger.words_mut().get_mut(place as usize), word)
    }

    // reference, place in its row, word
    fn spoil_row(&mut self, fields: &[u32]) -> Result<(), Unfit> {
        let [reference, place, word] = exactly::<3>(fields)?;
        let ledger = self.ledger.words_mut();
        spoil(look::word_of_row_mut(ledger, reference, place), word)
    }

    // path, hour, word
    fn spoil_posting(&mut self, fields: &[u32]) -> Result<(), Unfit> {
        let [path, hour, word] = exactly::<3>(fields)?;
        let postings = self.postings.words_mut();
        spoil(
            look::posting_mut(self.ledger.words(), postings, path, hour),
            word,
        )
    }
}

// A word overwritten, where there is one.
fn spoil(at: Option<&mut u32>, word: u32) -> Result<(), Unfit> {
    *at.ok_or(Unfit::Unreadable)? = word;
    Ok(())
}
