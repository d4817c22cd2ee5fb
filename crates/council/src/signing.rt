// What a record is: the signatures that it holds, and how many it can hold.
ghost use Rattle.std.specs.Prelude.{◌≡◌, ℕ, ◌+◌, ◌<◌, ◌≤◌, Bool, true, false, not, ◌&&◌, is_ok, if◌then◌else◌, Decides};
ghost use Rattle.council.specs.declared.statement.Signature.{Signature as Signed};
ghost use Rattle.council.specs.Signatures.{Numbers, adding};
ghost use Rattle.council.specs.Signing.{sign_answer};

use crate::statement::Signature;
use refusals::Refusal;

// A record means the set of signatures that it holds and a fixed capacity (the field's word:
// signature store). Signers are posts 0 to 63; a statement may have any shape.
pub trait Record {
    // The signatures held, as a test.
    ghost held: { Self → Signed → Bool };

    // How many are held.
    ghost number: { Self → ℕ };

    // How many can be held.
    ghost capacity: { Self → ℕ };

    // Whether the signature is held.
    fn holds(&self, signature: &Signature) -> bool
        ensures { result ≡ held self.now signature.now };

    // How many signatures are held.
    fn count(&self) -> usize
        ensures { result ≡ number self.now };

    // Whether no signature is held.
    fn is_empty(&self) -> bool
        ensures { Decides result ((x : Signed) → held self.now x ≡ false) }
    {
        self.count() == 0
    }

    // Adds the signature, unless it is held already. Refused: a signer above 63, then a full record.
    fn sign(&mut self, signature: Signature) -> Result<(), Refusal>
        ensures answer { result ≡ sign_answer (held self.old) (number self.old) (capacity self.old) signature }
        ensures held { held self.new ≡ (if is_ok result then adding (held self.old) signature else held self.old) }
        ensures number { number self.new ≡ number self.old + (if is_ok result && not (held self.old signature) then 1 else 0) }
        ensures capacity { capacity self.new ≡ capacity self.old };

    // The number is that of the set.
    ghost numbered: { (s : Self) → Numbers (held s) (number s) };

    // Signers have a bit in a mask.
    ghost masked: { (s : Self) (x : Signed) → held s x ≡ true → x.signer < 64 };

    // No more are held than can be.
    ghost within: { (s : Self) → number s ≤ capacity s };
}
