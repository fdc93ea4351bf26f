// Numbers in a text: `0`, or a digit from 1 to 9 and then any digits, and not above the largest.
ghost use Rattle.std.specs.Prelude.{◌≡◌};
ghost use Rattle.records.specs.Numbers.{number_of, said};

// What the digits say, where they are digits and that is not too large.
#[tactic(auto, using(crate::proofs::Digits::said_laws))]
fn read_digits(text: &[u8]) -> Option<u32>
    ensures { result ≡ said 0 text.now }
{
    let mut value: u32 = 0;
    for byte in text {
        let digit = char::from(*byte).to_digit(10)?;
        value = value.checked_mul(10)?.checked_add(digit)?;
    }
    Some(value)
}

// The number that a field is.
pub fn read_number(field: &[u8]) -> Option<u32>
    ensures { result ≡ number_of field.now }
{
    match field {
        [] | [b'0', _, ..] => None,
        _ => read_digits(field),
    }
}
