// What a frame is made of: numbers in a fixed count of digits, read and written one after the other.
ghost use Rattle.std.specs.Prelude.{◌≡◌, ℕ, ◌+◌, ◌^◌, ◌<◌, ◌≤◌, List, [], ◌∷◌, ◌++◌, length};
ghost use Rattle.std.specs.List.{AllByRecursion};
ghost use Rattle.hexadecimal.specs.Hex.{Hex, digits};
ghost use Rattle.letters.specs.Parts.{Part, Took, after, byte, long, short};
ghost use Rattle.arrayvec.specs.ArrayVec.{array_vec_len};

use crate::line::LONGEST_LINE;
use arrayvec::ArrayVec;
use lines::sound::SoundText;

// A line that is written: it grows field by field, and never needs more memory.
pub(crate) type LineText = ArrayVec<u8, LONGEST_LINE>;

// What is left of a frame's text.
#[derive(Drop)]
pub(crate) struct Fields<'a> {
    pub(crate) rest: &'a [u8],
    ghost hex: { ∥ AllByRecursion Hex rest.now ∥₁ },
}

// A sound text, of which nothing was read.
impl<'a> From<SoundText<'a>> for Fields<'a> {
    ghost from_gives = { λ text fields. fields.rest.now ≡ text.text.now };

    fn from(text: SoundText<'a>) -> Fields<'a> {
        Fields { rest: text.text() }
    }
}

// A number or a run of numbers, as a frame has them. `parts` ties it to the layout.
pub(crate) trait Field: Sized {
    // The numbers, each with its bytes.
    ghost parts: { Self → List Part };

    // How many characters they take.
    ghost width: { ℕ };

    // Takes it off the front of what is left of a text.
    fn read(fields: &mut Fields) -> Self
        requires { width ≤ length fields.old.rest.now }
        ensures { Took (parts result) fields.old.rest.now fields.new.rest.now };

    // Appends it to a line. `len` follows from `text`, and is said so that the next write finds room.
    fn write(&self, line: &mut LineText)
        requires { array_vec_len line.old + width ≤ 104 }
        ensures text { line.new.items ≡ after line.old.items (parts self.now) }
        ensures len { array_vec_len line.new ≡ array_vec_len line.old + width };
}

// Reads so many digits, the highest first.
fn take<const DIGITS: usize>(fields: &mut Fields) -> u64
    requires width { DIGITS ≤ 16 }
    requires some { DIGITS ≤ length fields.old.rest.now }
    ensures bound { result < 16 ^ DIGITS }
    ensures text { fields.old.rest.now ≡ digits DIGITS result ++ fields.new.rest.now }
    ensures left { length fields.new.rest.now + DIGITS ≡ length fields.old.rest.now }
{
    let (field, rest) = fields.rest.split_at(DIGITS);
    let Some(number) = hexadecimal::number(field) else {
        unreachable()
    };
    fields.rest = rest;
    number
}

// Writes the last so many digits, the highest first.
fn put<const DIGITS: usize>(line: &mut LineText, number: u64)
    requires { array_vec_len line.old + DIGITS ≤ 104 }
    ensures text { line.new.items ≡ line.old.items ++ digits DIGITS number }
    ensures len { array_vec_len line.new ≡ array_vec_len line.old + DIGITS }
{
    let mut field = [0; DIGITS];
    hexadecimal::put(&mut field, number);
    let Ok(()) = line.try_extend_from_slice(&field) else {
        unreachable()
    };
}

// One impl for each width: over a trait of numbers each would still give its width, its part and its
// cast.
impl Field for u8 {
    ghost parts = { λ n. byte n ∷ [] };

    ghost width = { 2 };

    fn read(fields: &mut Fields) -> u8 {
        take::<2>(fields) as u8
    }

    fn write(&self, line: &mut LineText) {
        put::<2>(line, u64::from(*self));
    }
}

impl Field for u16 {
    ghost parts = { λ n. short n ∷ [] };

    ghost width = { 4 };

    fn read(fields: &mut Fields) -> u16 {
        take::<4>(fields) as u16
    }

    fn write(&self, line: &mut LineText) {
        put::<4>(line, u64::from(*self));
    }
}

impl Field for u64 {
    ghost parts = { λ n. long n ∷ [] };

    ghost width = { 16 };

    fn read(fields: &mut Fields) -> u64 {
        take::<16>(fields)
    }

    fn write(&self, line: &mut LineText) {
        put::<16>(line, *self);
    }
}
