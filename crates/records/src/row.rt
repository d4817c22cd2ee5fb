// The rows of a sheet.
ghost use Rattle.std.specs.Prelude.{◌≡◌, ◌+◌, ◌<◌, ◌≤◌, true, false, vec_len, vec_capacity};
ghost use Rattle.records.specs.Rows.{Found, MarkedToo, apart, marked};

use council::statement::{Signature, Statement};
use masks::mask::with_post;

// A statement with the mask of its signers.
#[derive(Clone, Copy)]
pub struct Row {
    pub statement: Statement,
    pub signers: u64,
}

// The place of the row on the statement.
fn find(rows: &[Row], statement: &Statement) -> Option<usize>
    ensures { Found rows.now statement.now result }
{
    rows.iter().position(|row| row.statement == *statement)
}

// Marks a signature that is not marked, in the row of its statement, which is added where there is
// none.
pub(crate) fn mark(rows: &mut Vec<Row>, signature: Signature)
    requires signer { signature.signer < 64 }
    requires room { vec_len rows.old < vec_capacity rows.old }
    requires apart { apart rows.old.items ≡ true }
    requires unmarked { marked rows.old.items signature ≡ false }
    ensures marked { MarkedToo rows.old.items rows.new.items signature }
    ensures len { vec_len rows.new ≤ vec_len rows.old + 1 }
    ensures capacity { vec_capacity rows.new ≡ vec_capacity rows.old }
{
    let Signature { signer, statement } = signature;
    match find(rows, &statement) {
        Some(i) => rows[i].signers = with_post(rows[i].signers, signer),
        None => rows.push_reserved(Row {
            statement,
            signers: with_post(0, signer),
        }),
    }
}
