// The rows of a text, taken in turn: they are turned back, or the pairs that they name are marked.
#![tactic(auto)]

ghost use Rattle.std.specs.Prelude.{◌≡◌, ◌≤◌, length, replicate};
ghost use Rattle.refusal.specs.Refusal.{status_in};
ghost use Rattle.rulerows.specs.Inner.{RowFits, MarkedMore, RowsTaken};

use refusal::Refusal;
use rowline::row_line;
use rowmarks::mark_row;
use rulerows::rows::Row;

// Marks the pairs of one row more, after rows that came to `taken`: `PairTwice` once two rows name one pair.
fn mark_more(marks: &mut [u8], row: Row, taken: Result<(), Refusal>) -> Result<(), Refusal>
    requires { (length marks.old ≡ 256) × (RowFits row) }
    ensures { MarkedMore row (status_in taken) marks.old marks.new (status_in result) }
{
    taken?;
    if mark_row(marks, row) {
        return Ok(());
    }
    Err(Refusal::PairTwice)
}

// Takes the rows of a text: `WrongRows` where it is not rows alone, `PairTwice` where two of them name one pair, or their pairs are marked.
pub fn take_all(text: &[u8], states: u64, symbols: u64, marks: &mut [u8]) -> Result<(), Refusal>
    requires { (length text.now ≤ 8192) × ((states ≤ 16) × ((symbols ≤ 16) × (marks.old ≡ replicate 256 0))) }
    ensures { RowsTaken states symbols text.now marks.new (status_in result) }
{
    let mut taken = Ok(());
    for i in 0..text.len().div_ceil(32) {
        let Some(row) = row_line(text, i * 32, states, symbols) else {
            return Err(Refusal::WrongRows);
        };
        taken = mark_more(marks, row, taken);
    }
    taken
}
