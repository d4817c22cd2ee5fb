// An input that comes in byte by byte, and the line it is in.
ghost use Rattle.std.specs.Prelude.{◌≡◌, ℕ, ◌+◌, ◌<◌, true, false, List, [], ◌∷◌, ◌++◌};
ghost use Rattle.lines.specs.Buffer.{Holds};
ghost use Rattle.reader.specs.Intake.{Came, Did};
ghost use Rattle.lines.specs.Judged.{Judged};
ghost use Rattle.lines.specs.Lines.{first_line, line_after};

use crate::input::LAST;
use lines::buffer::LineBuffer;
use lines::line::Line;

// What a byte did to the line that comes in.
#[derive(Clone, Copy, Debug, PartialEq, Eq)]
pub enum Progress {
    // The line goes on.
    Inside,
    // The byte was 0a: the line is whole.
    Ended,
    // 65,535 lines came in before: the byte was let go.
    Past,
}

// The line that came in last, its number, and whether it is open: begun and not ended. The line has its
// number open or ended, so an enum of both states would hold it twice and be no plainer.
#[derive(Drop)]
pub struct Intake {
    line: LineBuffer,
    number: u16,
    open: bool,
}

impl Intake {
    // Nothing has come in.
    pub fn new() -> Intake
        ensures { Came [] result }
    {
        Intake {
            line: LineBuffer::new(),
            number: 0,
            open: false,
        }
    }

    // One byte more.
    pub fn push(&mut self, byte: u8) -> Progress
        ensures came { (input : List ℕ) → Came input self.old → Came (input ++ byte ∷ []) self.new }
        ensures did { Did self.old.open self.old.number byte self.new.open self.new.number result }
        ensures past { result ≡ Progress.Past → self.new ≡ self.old }
    {
        if self.open {
            return self.take(byte);
        }
        if self.number == LAST {
            return Progress::Past;
        }
        self.begin();
        self.take(byte)
    }

    // Opens the next line.
    fn begin(&mut self)
        requires { self.old.number < 65535 }
        ensures held { Holds self.new.line [] }
        ensures number { self.new.number ≡ self.old.number + 1 }
        ensures opened { self.new.open ≡ true }
    {
        self.line.clear();
        self.number += 1;
        self.open = true;
    }

    // One byte more of the line that is open.
    fn take(&mut self, byte: u8) -> Progress
        requires { self.old.open ≡ true }
        ensures held { (line : List ℕ) → Holds self.old.line line → Holds self.new.line (line ++ first_line (byte ∷ [])) }
        ensures did { Did true self.old.number byte self.new.open self.new.number result }
    {
        if byte == b'\n' {
            self.open = false;
            return Progress::Ended;
        }
        self.line.push(byte);
        Progress::Inside
    }

    // A line has begun and has not ended: at the input's end it is the last line.
    pub fn is_open(&self) -> bool
        ensures { result ≡ self.now.open }
    {
        self.open
    }

    // What the line that came in last is.
    pub fn line(&self) -> Line<'_>
        ensures { (input : List ℕ) (k : ℕ) → Came input self.now → self.now.number ≡ k + 1 → Judged (line_after k input) self.now.number result }
    {
        self.line.judge(self.number)
    }
}
