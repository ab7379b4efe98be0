// One row of a rule: its line, and whether its numbers are within their limits.
#![tactic(auto)]

ghost use Rattle.std.specs.Prelude.{◌≡◌, [], ◌≤◌, length, drop};
ghost use Rattle.lines.specs.Line.{line_of};
ghost use Rattle.rulerows.specs.Inner.{row_due};
ghost use Rattle.rulerows.specs.RuleRows.{good_row};

use duelines::due_line;
use rulerows::rows::{Row, Span};

// Whether the numbers of a row are within their limits, and no first is above its last.
fn is_row(states: u64, symbols: u64, numbers: &[u64; 5]) -> bool
    ensures { result ≡ good_row states symbols 0 [] numbers.now }
{
    numbers[0] <= numbers[1]
        && numbers[1] < states
        && numbers[2] <= numbers[3]
        && numbers[3] < symbols
        && numbers[4] < states
}

// The row that is due at `at`, if it is there and within its limits.
pub fn row_line(text: &[u8], at: usize, states: u64, symbols: u64) -> Option<Row>
    requires { at ≤ length text.now }
    ensures { result ≡ row_due states symbols (line_of 81 5 (drop at text.now)) }
{
    let mut numbers = [0u64; 5];
    due_line(text, at, 81, 5, &mut numbers).ok()?;
    if !is_row(states, symbols, &numbers) {
        return None;
    }
    Some(Row {
        states: Span {
            first: numbers[0],
            last: numbers[1],
        },
        symbols: Span {
            first: numbers[2],
            last: numbers[3],
        },
        next: numbers[4],
    })
}
