// Rule rows on bytes: a text of rows, with states, symbols and the final set as numbers, and a rule buffer of 256 bytes.
ghost use Rattle.std.specs.Prelude.{◌≡◌, length};
ghost use Rattle.automaton.specs.Made.{made_after};
ghost use Rattle.rulerows.specs.RuleRows.{rows_made, rows_answer, rows_number};

// Makes a rule of rows and returns 2^48, or the refusal's number. A refusal leaves the rule buffer.
#[unsafe(no_mangle)]
pub extern "C" fn dapohiru_rows(
    rows: &[u8],
    states: u64,
    symbols: u64,
    finals: u64,
    rule: &mut [u8],
) -> u64
    ensures { (result ≡ rows_number (rows_answer (rows_made rows.now states symbols finals (length rule.old))))
        × (rule.new ≡ made_after (rows_made rows.now states symbols finals (length rule.old)) rule.old) }
{
    rulenumbers::of_rows(rowscall::take_rows(rows, states, symbols, finals, rule))
}
