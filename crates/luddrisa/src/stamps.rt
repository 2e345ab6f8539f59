// The numbers of what the calls on stamps answer.
ghost use Rattle.std.specs.Prelude.{◌≡◌, cond, is_ok};
ghost use Rattle.std.specs.Ordering.{ordering_index};

use std::cmp::Ordering;

// Of a stamp that is not read, and of one that is not written: made for C here, where `stamp` has two errors.
pub const NOT_READ: u32 = 18;

pub const NOT_WRITTEN: u32 = 19;

// 0, or the number of the refusal. Not that of `rules`: `stamp` stands alone, and its errors have none of its numbers.
pub fn number_of<T: Drop, E: Drop>(outcome: Result<T, E>, refused: u32) -> u32
    ensures { result ≡ cond (is_ok outcome) 0 refused }
{
    match outcome {
        Ok(_) => 0,
        Err(_) => refused,
    }
}

// 0, 1 or 2 as the first is earlier than, the same as or later than the second.
pub fn order_number(order: Ordering) -> u32
    ensures { result ≡ ordering_index order }
{
    match order {
        Ordering::Less => 0,
        Ordering::Equal => 1,
        Ordering::Greater => 2,
    }
}
