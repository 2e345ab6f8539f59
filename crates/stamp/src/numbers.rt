// Numbers of two digits.
ghost use Rattle.std.specs.Prelude.{◌≡◌, ◌<◌};
ghost use Rattle.stamp.specs.Stamp.{two_digits, number_at, digits_of, no_number};
ghost use Rattle.stamp.specs.Steps.{number_or_none, Within};

// The number that two digits stand for.
#[tactic(auto, using(crate::proofs::Digits::digits_by_code))]
fn two_digits(tens: u8, units: u8) -> Option<u32>
    ensures { number_or_none result ≡ two_digits tens units }
{
    let tens = char::from(tens).to_digit(10)?;
    let units = char::from(units).to_digit(10)?;
    Some(10 * tens + units)
}

// The number of two digits, if it is from the least on and not above the most.
pub fn number_in(digits: [u8; 2], least: u32, most: u32) -> Option<u32>
    requires { most < no_number }
    ensures { Within least most (number_at digits 0) result }
{
    let [tens, units] = digits;
    let number = two_digits(tens, units)?;
    (least..=most).contains(&number).then_some(number)
}

// The two digits of a number.
pub fn digits_of(number: u32) -> [u8; 2]
    requires { number < no_number }
    ensures { result ≡ digits_of number }
{
    [b'0' + (number / 10) as u8, b'0' + (number % 10) as u8]
}
