// One R line, read into the work buffer.
#![tactic(auto)]

ghost use Rattle.std.specs.Prelude.{◌<◌, ◌≤◌, length, drop};
ghost use Rattle.buffer.specs.Layout.{Lent};
ghost use Rattle.jobhead.specs.ReadLines.{RuleRead};

use duelines::due_line;
use refusal::Refusal;
use rulestore::{are_below, store_row};

// Reads the R line at `at` as that of state q: `FileEnds`, `WrongLine` or `WrongRuleLine`, or its final mark, and the row is stored.
pub fn rule_line(
    file: &[u8],
    at: usize,
    work: &mut [u8],
    states: u64,
    symbols: usize,
    q: usize,
) -> Result<u64, Refusal>
    requires { (at ≤ length file.now) × ((Lent work.old) × ((states ≤ 16) × ((symbols ≤ 16) × (q < 16)))) }
    ensures { RuleRead states symbols q (drop at file.now) work.old work.new result }
{
    let mut numbers = [0u64; 18];
    due_line(file, at, 82, symbols + 2, &mut numbers)?;
    let place = q as u64;
    if numbers[0] != place {
        return Err(Refusal::WrongRuleLine);
    }
    if 1 < numbers[1] {
        return Err(Refusal::WrongRuleLine);
    }
    if !are_below(&numbers, states, symbols) {
        return Err(Refusal::WrongRuleLine);
    }
    store_row(work, q, &numbers);
    Ok(numbers[1])
}
