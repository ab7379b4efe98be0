// The R lines, read into the work buffer.
#![tactic(auto)]

ghost use Rattle.std.specs.Prelude.{◌≤◌, length, drop};
ghost use Rattle.buffer.specs.Layout.{Lent};
ghost use Rattle.jobhead.specs.ReadLines.{RulesRead};

use refusal::Refusal;
use ruleline::rule_line;
use rulestore::clear_rule;

// Reads the R lines from `at` on: `FileEnds`, `WrongLine` or `WrongRuleLine`, or the set of final states, and the rule is stored.
pub fn rule_lines(
    file: &[u8],
    at: usize,
    work: &mut [u8],
    states: u64,
    symbols: usize,
) -> Result<u64, Refusal>
    requires { (at ≤ length file.now) × ((Lent work.old) × ((states ≤ 16) × (symbols ≤ 16))) }
    ensures { RulesRead states symbols (drop at file.now) work.old work.new result }
{
    clear_rule(work);
    let len = (symbols + 2) * 6 + 2;
    let rows = states as usize;
    let mut finals: u64 = 0;
    for q in 0..rows {
        let mark = rule_line(file, at + q * len, work, states, symbols, q)?;
        finals |= mark << q;
    }
    Ok(finals)
}
