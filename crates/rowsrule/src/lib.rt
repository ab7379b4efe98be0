// The rule of the marks of rows: whether every pair has a mark, and the rule's bytes.
#![tactic(auto)]

ghost use Rattle.std.specs.Prelude.{◌≡◌, ◌-◌, ◌≤◌, eqb, length, get_or};
ghost use Rattle.laws.specs.Bounded.{any_below, tab};
ghost use Rattle.rulerows.specs.Inner.{mark_at};

// Whether a pair of this state has no mark.
fn lacks_mark(marks: &[u8], state: usize, symbols: usize) -> bool
    requires { (length marks.now ≡ 256) × ((state ≤ 15) × (symbols ≤ 16)) }
    ensures { result ≡ any_below symbols (λ c. eqb (mark_at marks.now state c) 0) }
{
    for c in 0..symbols {
        if marks[state * 16 + c] == 0 {
            return true;
        }
    }
    false
}

// Whether a pair of a state and a symbol has no mark.
pub fn is_missing(marks: &[u8], states: u64, symbols: u64) -> bool
    requires { (length marks.now ≡ 256) × ((states ≤ 16) × (symbols ≤ 16)) }
    ensures { result ≡ any_below states (λ q. any_below symbols (λ c. eqb (mark_at marks.now q c) 0)) }
{
    let rows = states as usize;
    let columns = symbols as usize;
    for q in 0..rows {
        if lacks_mark(marks, q, columns) {
            return true;
        }
    }
    false
}

// Writes the next states of the marks to the rule buffer: 0 where there is no mark.
pub fn write_rule(marks: &[u8], rule: &mut [u8])
    requires { (length marks.now ≡ 256) × (length rule.old ≡ 256) }
    ensures { rule.new ≡ tab 256 (λ i. get_or marks.now i 0 - 1) }
{
    for i in 0..256 {
        rule[i] = marks[i].saturating_sub(1);
    }
}
