// Hexadecimal digits, and numbers in a fixed count of them.
#![tactic(auto)]

ghost use Rattle.std.specs.Prelude.{◌≡◌, ◌%◌, ◌<◌, length};
ghost use Rattle.hexadecimal.specs.Hex.{AsNumber, Worth, char_of, digits};

// The most digits a 64-bit number has.
const WIDEST: usize = 16;

// The value of a hexadecimal digit: 0 to 9 and small a to f only. The library's `to_digit` and
// `from_str_radix` take capitals, and the latter a sign.
pub fn value(byte: u8) -> Option<u8>
    ensures { Worth byte result }
{
    match char::from(byte) {
        '0'..='9' => Some(byte - b'0'),
        'a'..='f' => Some(byte - b'a' + 10),
        _ => None,
    }
}

// The digit of a value below sixteen, by literals, as `value` reads it.
fn digit(value: u8) -> u8
    requires { value < 16 }
    ensures { result ≡ char_of value }
{
    match value {
        0..=9 => b'0' + value,
        _ => b'a' + (value - 10),
    }
}

// The last digit of a number.
fn last_digit(number: u64) -> u8
    ensures { result ≡ char_of (number % 16) }
{
    digit((number % 16) as u8)
}

// The number that a text of at most sixteen digits writes; none for any other text.
pub fn number(text: &[u8]) -> Option<u64>
    ensures { AsNumber text.now result }
{
    if text.len() > WIDEST {
        return None;
    }
    let mut n = 0;
    for byte in text {
        n = n * 16 + u64::from(value(*byte)?);
    }
    Some(n)
}

// Fills `out` with the last digits of `value`, one to a place, the highest first.
pub fn put(out: &mut [u8], value: u64)
    ensures { out.new ≡ digits (length out.old) value }
{
    let mut rest = value;
    // By number: tried over `iter_mut().rev()`, and `returns` stayed open, since nothing is known then of
    // what was written.
    for place in (0..out.len()).rev() {
        out[place] = last_digit(rest);
        rest /= 16;
    }
}
