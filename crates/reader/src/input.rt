// The lines of an input that lies in memory, one after the other.
ghost use Rattle.std.specs.Prelude.{◌≡◌, ◌-◌};
ghost use Rattle.reader.specs.Next.{Next};
ghost use Rattle.lines.specs.Lines.{rest_after};
ghost use Rattle.std.specs.Iterator.{at_most};

use lines::line::{Line, first_line};

// The most lines that are read of an input.
pub const LAST: u16 = 65_535;

// A reader has handed out the first `number` lines of its input, and `rest` follows them. The contracts
// name each line by the whole input, so it stays a field: a ghost field holds a fact, and no value.
#[derive(Drop)]
pub struct Reader<'a> {
    input: &'a [u8],
    rest: &'a [u8],
    number: u16,
    ghost stands: { rest.now ≡ rest_after number input.now },
}

impl<'a> Reader<'a> {
    // A reader at the start of an input.
    pub fn new(input: &'a [u8]) -> Reader<'a>
        ensures input { result.input.now ≡ input.now }
        ensures number { result.number ≡ 0 }
    {
        Reader {
            input,
            rest: input,
            number: 0,
        }
    }

    // What is not read yet.
    pub fn rest(&self) -> &'a [u8]
        ensures { result.now ≡ rest_after self.now.number self.now.input.now }
    {
        self.rest
    }
}

// Each line is known by the input and by how many were handed out before it.
impl<'a> Iterator for Reader<'a> {
    type Item = Line<'a>;

    ghost next_gives = { λ s r t. Next s.input.now s.number r t.number × (t.input.now ≡ s.input.now) };

    ghost remaining = { λ s. at_most (65535 - s.number) };

    fn next(&mut self) -> Option<Line<'a>> {
        if self.rest.is_empty() || self.number == LAST {
            return None;
        }
        let (text, rest) = first_line(self.rest);
        let number = self.number + 1;
        *self = Reader {
            input: self.input,
            rest,
            number,
        };
        Some(Line::of(number, text))
    }
}
