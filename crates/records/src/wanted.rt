// What is asked of a signing before a record takes it, the same for both records.
ghost use Rattle.records.specs.Wanted.{Wanted};

use council::statement::Signature;
use refusals::Refusal;

// Whether a signature is to be added to a record that holds it already or not, and is full or not: a
// plain yes, since the record adds it or does nothing.
pub(crate) fn is_wanted(signature: &Signature, held: bool, full: bool) -> Result<bool, Refusal>
    ensures { Wanted signature.now held full result }
{
    match (signature.signer, held, full) {
        (64.., _, _) => Err(Refusal::NoSuchPost),
        (_, true, _) => Ok(false),
        (_, false, true) => Err(Refusal::RecordFull),
        (_, false, false) => Ok(true),
    }
}
