// Letters as entries, so that the posts behind a kind and view can be worked out.
ghost use Rattle.letters.specs.Layout.{code_of};
ghost use Rattle.std.proofs.Common.{rules};

use crate::letter::Letter;
use masks::senders::Entry;

// A letter comes from its sender, and is on the code of its kind and its view. The code and no Kind: who
// asks may name any byte.
impl Entry for Letter {
    type Matter = (u8, u16);

    ghost from = { λ l. l.sender };

    ghost about = { λ l. (code_of l.body, l.view) };

    ghost exact = { Prim.search rules };

    fn sender(&self) -> u8 {
        self.sender
    }

    fn matter(&self) -> (u8, u16) {
        (self.body.code(), self.view)
    }
}
