// A post's place in its council.
ghost use Rattle.std.specs.Prelude.{◌<◌};

use council::council::Council;

mod calls;

// The council that a post sits in, and its number there. There is no seat outside the council, so
// no call asks for that again.
#[derive(Clone, Copy)]
pub struct Seat {
    pub(crate) council: Council,
    pub(crate) me: u8,
    ghost below: { me < council.n },
}
