// A day at the desk: fourteen actions, carried out one after the other, on two paths that were posted before.
// A line for each: action, number, reference, status before, status after, MW-hours moved.
#![tactic(auto)]

use layout::create::Creation;
use layout::numbers::*;
use rules::{Action, Answer, Kind};
use std::ops::Range;
use std::{fmt, io};

// The ledger: its rows and hours, and what it is created with.
const DESK_ROWS: usize = 8;

const DESK_HOURS: usize = 4;

const NEW_LEDGER: Creation = Creation {
    rows: DESK_ROWS as u32,
    hours: DESK_HOURS as u32,
    provider: DESK_PROVIDER,
    window: 3600,
    base: 0,
};

const DESK_PROVIDER: u32 = 1;

const LEDGER_WORDS: usize = HEAD_WORDS + DESK_ROWS * (ROW_WORDS + PROFILES * DESK_HOURS);

const POSTINGS_WORDS: usize = MOST_PATH as usize * DESK_HOURS;

// The path of the original and the resales, and that of the redirect and its relinquishment.
const FIRST_PATH: u32 = 1;

const SECOND_PATH: u32 = 2;

// What is posted of either path.
const POSTED: [u32; DESK_HOURS] = [100, 100, 100, 100];

// The profiles of the day, hour by hour.
const ORIGINAL: &[u32] = &[100, 100, 100, 100];

const FIRST_RESALE: &[u32] = &[40, 60];

const REDIRECT: &[u32] = &[40, 50];

const SECOND_RESALE: &[u32] = &[1];

const GIVEN_UP: &[u32] = &[20];

// An action, and the profile that comes with it: the whole of the words that are lent.
#[derive(Clone, Copy)]
struct Request<'a> {
    action: Action,
    profile: &'a [u32],
}

// A posting of the provider, of all hours of a path.
fn post(path: u32) -> Request<'static> {
    Request {
        action: Action {
            kind: u32::from(Kind::Post),
            actor: DESK_PROVIDER,
            stop: DESK_HOURS as u32,
            path,
            ..Action::default()
        },
        profile: &POSTED,
    }
}

// What is asked for: the hours, the bid and the profile.
#[derive(Drop)]
struct Terms<'a> {
    hours: Range<u32>,
    bid: u32,
    profile: &'a [u32],
}

impl<'a> Terms<'a> {
    fn new(hours: Range<u32>, bid: u32, profile: &'a [u32]) -> Terms<'a> {
        Terms {
            hours,
            bid,
            profile,
        }
    }

    // A submission that asks for this.
    fn asked_by(self, submission: Action) -> Request<'a> {
        let Range { start, end: stop } = self.hours;
        Request {
            action: Action {
                start,
                stop,
                price: self.bid,
                ..submission
            },
            profile: self.profile,
        }
    }
}

// A submission to the provider for the first path, without what is asked for.
fn submit(customer: u32, reqtype: u32) -> Action {
    Action {
        kind: u32::from(Kind::Submit),
        actor: customer,
        reqtype,
        seller: DESK_PROVIDER,
        path: FIRST_PATH,
        ..Action::default()
    }
}

// A firm original.
fn submit_original(customer: u32, terms: Terms) -> Request {
    terms.asked_by(submit(customer, ORIGINAL_FIRM))
}

// A resale by the customer of the related row, preconfirmed.
fn submit_resale(customer: u32, seller: u32, related: u32, terms: Terms) -> Request {
    terms.asked_by(Action {
        seller,
        related,
        flags: PRECONFIRMED,
        ..submit(customer, RESALE)
    })
}

// A request on the second path, preconfirmed: a non-firm redirect, or a part of one given up.
fn submit_there(customer: u32, reqtype: u32, related: u32, terms: Terms) -> Request {
    terms.asked_by(Action {
        related,
        flags: PRECONFIRMED,
        path: SECOND_PATH,
        ..submit(customer, reqtype)
    })
}

// A status for a reference, with a price and no profile.
fn name_status(
    kind: Kind,
    actor: u32,
    reference: u32,
    status: u32,
    price: u32,
) -> Request<'static> {
    Request {
        action: Action {
            kind: u32::from(kind),
            actor,
            reference,
            status,
            price,
            ..Action::default()
        },
        profile: &[],
    }
}

fn accept(seller: u32, reference: u32, offer: u32) -> Request<'static> {
    name_status(Kind::SellerStatus, seller, reference, ACCEPTED, offer)
}

fn confirm(customer: u32, reference: u32, bid: u32) -> Request<'static> {
    name_status(Kind::CustomerStatus, customer, reference, CONFIRMED, bid)
}

fn displace(seller: u32, reference: u32) -> Request<'static> {
    name_status(Kind::SellerStatus, seller, reference, DISPLACED, 0)
}

fn annul(seller: u32, reference: u32) -> Request<'static> {
    name_status(Kind::SellerStatus, seller, reference, ANNULLED, 0)
}

// A length as a word of an action.
fn word(length: usize) -> io::Result<u32> {
    u32::try_from(length).map_err(|_| io::Error::from(io::ErrorKind::InvalidInput))
}

// What is posted before the day.
fn posted_before() -> [Request<'static>; 2] {
    [post(FIRST_PATH), post(SECOND_PATH)]
}

fn day() -> [Request<'static>; 14] {
    [
        submit_original(10, Terms::new(0..4, 500, ORIGINAL)),
        accept(1, 1, 500),
        confirm(10, 1, 500),
        submit_resale(20, 10, 1, Terms::new(1..3, 700, FIRST_RESALE)),
        accept(10, 2, 700),
        submit_there(10, NONFIRM_REDIRECT, 1, Terms::new(2..4, 0, REDIRECT)),
        accept(1, 3, 0),
        submit_resale(30, 10, 1, Terms::new(2..3, 0, SECOND_RESALE)),
        accept(10, 4, 0),
        displace(1, 1),
        submit_there(10, RELINQUISH, 3, Terms::new(3..4, 0, GIVEN_UP)),
        accept(1, 5, 0),
        annul(10, 2),
        annul(1, 3),
    ]
}

// The line of an action: its place in the day, from 1, and the answer.
#[derive(Drop)]
struct Line {
    place: usize,
    answer: Answer,
}

impl fmt::Display for Line {
    fn fmt<W: fmt::Write>(&self, f: &mut fmt::Formatter<W>) -> fmt::Result {
        let place = self.place;
        let Answer {
            number,
            reference,
            before,
            after,
            moved,
        } = self.answer;
        write!(f, "{place} {number} {reference} {before} {after} {moved}")
    }
}

// The words of the ledger and of the postings. They are arrays and no Vec, as is the day: the library has no heap and
// needs none, so a host gives it words that it has, of a size that it knows, and nothing here runs out of memory.
#[derive(Drop)]
struct Desk {
    ledger: [u32; LEDGER_WORDS],
    postings: [u32; POSTINGS_WORDS],
}

impl Desk {
    // A fresh ledger, with nothing posted.
    fn new() -> Desk {
        let mut ledger = [0; LEDGER_WORDS];
        // these numbers are good, and the length is theirs
        let _ = layout::create::create(&mut ledger, NEW_LEDGER);
        Desk {
            ledger,
            postings: [0; POSTINGS_WORDS],
        }
    }

    fn act(&mut self, request: Request) -> io::Result<Answer> {
        let action = Action {
            offset: 0,
            length: word(request.profile.len())?,
            ..request.action
        };
        let Desk { ledger, postings } = self;
        Ok(ledger::act(ledger, postings, request.profile, action))
    }
}

// Carries out what comes before the day. It has no lines, but one for each refusal, as action 0.
fn carry_out_before(rt: &impl Print, desk: &mut Desk, requests: &[Request]) -> io::Result<()> {
    for request in requests {
        let answer = desk.act(*request)?;
        if answer.number != 0 {
            rt.println(Line { place: 0, answer })?;
        }
    }
    Ok(())
}

// Carries each action out, and prints its line.
fn carry_out(rt: &impl Print, desk: &mut Desk, requests: &[Request]) -> io::Result<()> {
    for (n, request) in requests.iter().enumerate() {
        let answer = desk.act(*request)?;
        rt.println(Line {
            place: n + 1,
            answer,
        })?;
    }
    Ok(())
}

fn main(rt: HostRuntime) -> io::Result<()> {
    let mut desk = Desk::new();
    carry_out_before(&rt, &mut desk, &posted_before())?;
    carry_out(&rt, &mut desk, &day())
}
