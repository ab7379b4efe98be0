// The rule of the job that the work buffer holds, copied to a rule buffer.
#![tactic(auto)]

ghost use Rattle.std.specs.Prelude.{◌≡◌, length, take, drop};
ghost use Rattle.buffer.specs.Layout.{rule_part, Lent};

use buffer::RULE;

// Copies the rule's 256 bytes to the rule buffer.
pub fn copy_rule(work: &[u8], rule: &mut [u8])
    requires { (Lent work.now) × (length rule.old ≡ 256) }
    ensures { rule.new ≡ take 256 (drop rule_part work.now) }
{
    for i in 0..256 {
        rule[i] = work[RULE + i];
    }
}
