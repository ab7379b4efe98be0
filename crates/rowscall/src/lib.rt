// Rule rows that offices can edit: a text of rows, states, symbols and the final set in; the rule's 256 bytes or a refusal out.
#![tactic(auto)]

ghost use Rattle.std.specs.Prelude.{◌≡◌, length};
ghost use Rattle.refusal.specs.Refusal.{said};
ghost use Rattle.automaton.specs.Made.{made_after};
ghost use Rattle.automaton.specs.Table.{rule_size};
ghost use Rattle.rulevalue.specs.Value.{said_beside};
ghost use Rattle.rulerows.specs.RuleRows.{rows_made, rows_answer, rows_value};

use limits::do_numbers_fit;
use refusal::Refusal;
use rowsread::take_all;
use rowsrule::{is_missing, write_rule};
use rulevalue::WithTable;

// The length of a rule buffer.
const ROOM: usize = 256;

// The length of a text of 256 rows.
const LONGEST: usize = 8192;

// Makes a rule of the rows of a text. A refusal leaves the rule buffer.
pub fn take_rows(
    rows: &[u8],
    states: u64,
    symbols: u64,
    finals: u64,
    rule: &mut [u8],
) -> Result<(), Refusal>
    ensures { (said result ≡ rows_answer (rows_made rows.now states symbols finals (length rule.old)))
        × (rule.new ≡ made_after (rows_made rows.now states symbols finals (length rule.old)) rule.old) }
{
    if rule.len() != ROOM {
        return Err(Refusal::WrongRule);
    }
    if LONGEST < rows.len() {
        return Err(Refusal::WrongRows);
    }
    if !do_numbers_fit(states, symbols, finals) {
        return Err(Refusal::WrongRows);
    }
    let mut marks = [0u8; 256];
    take_all(rows, states, symbols, &mut marks)?;
    if is_missing(&marks, states, symbols) {
        return Err(Refusal::PairMissing);
    }
    write_rule(&marks, rule);
    Ok(())
}

// The rule of the rows of a text by value, with its table beside the answer.
pub fn rows_rule(
    rows: &[u8],
    states: u64,
    symbols: u64,
    finals: u64,
) -> WithTable<Result<(), Refusal>>
    ensures { said_beside result ≡ rows_value (rows_made rows.now states symbols finals rule_size) }
{
    let mut table = [0u8; 256];
    let answer = take_rows(rows, states, symbols, finals, &mut table);
    WithTable {
        answer: answer,
        table: table,
    }
}
