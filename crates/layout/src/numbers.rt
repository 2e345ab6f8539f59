// The numbers of a ledger, each named once.

// Sizes in words: the head; a row before its profiles, of which so many are in use. Profiles of a row.
pub const HEAD_WORDS: usize = 8;

pub const ROW_WORDS: usize = 16;

pub const USED_WORDS: usize = 12;

pub const PROFILES: usize = 5;

// Greatest values. The year 2099 ends with END_HOUR and END_SECOND, and limits end with END_LIMIT.
pub const MOST_ROWS: u32 = 1024;

pub const MOST_HOURS: u32 = 744;

pub const MOST_ENTITY: u32 = 65535;

pub const MOST_WINDOW: u32 = 2592000;

pub const MOST_PRICE: u32 = 99999999;

pub const MOST_MEGAWATTS: u32 = 100000;

pub const MOST_TYPE: u32 = 8;

pub const MOST_STATUS: u32 = 17;

pub const MOST_FLAGS: u32 = 63;

pub const MOST_PATH: u32 = 64;

pub const END_HOUR: u32 = 876600;

pub const END_SECOND: u32 = 3155760000;

pub const END_LIMIT: u32 = END_SECOND + MOST_WINDOW;

// Words of the head.
pub const ROWS: usize = 0;

pub const HOURS: usize = 1;

pub const PROVIDER: usize = 2;

pub const WINDOW: usize = 3;

pub const BASE: usize = 4;

pub const CLOCK: usize = 5;

pub const USED: usize = 6;

pub const HEAD_END: usize = 7;

// Words of a row.
pub const REQTYPE: usize = 0;

pub const STATUS: usize = 1;

pub const CUSTOMER: usize = 2;

pub const SELLER: usize = 3;

pub const RELATED: usize = 4;

pub const START: usize = 5;

pub const STOP: usize = 6;

pub const FLAGS: usize = 7;

pub const BID: usize = 8;

pub const OFFER: usize = 9;

pub const LIMIT: usize = 10;

pub const PATH: usize = 11;

// Flags.
pub const PRECONFIRMED: u32 = 1;

pub const COORDINATED: u32 = 2;

pub const APPROVED: u32 = 4;

pub const GRANTED_GIVEN: u32 = 8;

pub const OFFER_GIVEN: u32 = 16;

// The row was ever at 6 or 7.
pub const COUNTERED: u32 = 32;

// Statuses and types are numbers, and no enums: words of the ledger, which C and the scheduling program read.

// Statuses.
pub const QUEUED: u32 = 1;

pub const INVALID: u32 = 2;

pub const RECEIVED: u32 = 3;

pub const STUDY: u32 = 4;

pub const REFUSED: u32 = 5;

pub const COUNTEROFFER: u32 = 6;

pub const CR_COUNTEROFFER: u32 = 7;

pub const REBID: u32 = 8;

pub const SUPERSEDED: u32 = 9;

pub const ACCEPTED: u32 = 10;

pub const CR_ACCEPTED: u32 = 11;

pub const DECLINED: u32 = 12;

pub const CONFIRMED: u32 = 13;

pub const WITHDRAWN: u32 = 14;

pub const DISPLACED: u32 = 15;

pub const ANNULLED: u32 = 16;

pub const RETRACTED: u32 = 17;

// Types.
pub const ORIGINAL_FIRM: u32 = 1;

pub const ORIGINAL_NONFIRM: u32 = 2;

pub const RESALE: u32 = 3;

pub const FIRM_REDIRECT: u32 = 4;

pub const NONFIRM_REDIRECT: u32 = 5;

pub const PART_TRANSFER: u32 = 6;

pub const FULL_TRANSFER: u32 = 7;

pub const RELINQUISH: u32 = 8;
