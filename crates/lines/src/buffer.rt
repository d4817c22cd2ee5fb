// A line that comes in byte by byte.
ghost use Rattle.std.specs.Prelude.{◌≡◌, ℕ, List, [], ◌∷◌, ◌++◌, Decides};
ghost use Rattle.lines.specs.Buffer.{Holds};
ghost use Rattle.lines.specs.Judged.{Judged};

use crate::damage::LONGEST;
use crate::front::Front;
use crate::line::Line;
use arrayvec::ArrayVec;

// The first 512 characters of a line, and whether it has more: what is past them is only known to be
// there. A flag and no 513th place, since 512 characters are what is kept of a line.
#[derive(Drop)]
pub struct LineBuffer {
    kept: ArrayVec<u8, LONGEST>,
    longer: bool,
}

impl LineBuffer {
    // Room for a line of which nothing has come.
    pub fn new() -> LineBuffer
        ensures { Holds result [] }
    {
        LineBuffer {
            kept: ArrayVec::new(),
            longer: false,
        }
    }

    // One character more.
    pub fn push(&mut self, byte: u8)
        ensures { (line : List ℕ) → Holds self.old line → Holds self.new (line ++ byte ∷ []) }
    {
        // Room is asked for first: that is faster than the answer of `try_push`.
        if self.kept.is_full() {
            self.longer = true;
            return;
        }
        self.kept.push(byte);
    }

    // Makes room for the next line.
    pub fn clear(&mut self)
        ensures { Holds self.new [] }
    {
        self.kept.clear();
        self.longer = false;
    }

    // Whether nothing has come.
    pub fn is_empty(&self) -> bool
        ensures { (line : List ℕ) → Holds self.now line → Decides result (line ≡ []) }
    {
        self.kept.is_empty()
    }

    // What the line that came in is, under this number.
    pub fn judge(&self, number: u16) -> Line<'_>
        ensures { (line : List ℕ) → Holds self.now line → Judged line number result }
    {
        let front = Front {
            seen: self.kept.as_slice(),
            longer: self.longer,
        };
        front.judge(number)
    }
}
