// The rule of a job: a job file and a work buffer in; the rule's 256 bytes, its states, symbols and final set, or a refusal out.
#![tactic(auto)]

ghost use Rattle.std.specs.Prelude.{◌≡◌, length};
ghost use Rattle.refusal.specs.Refusal.{said};
ghost use Rattle.rulevalue.specs.Value.{said_beside};
ghost use Rattle.admission.specs.Admission.{work_after};
ghost use Rattle.automaton.specs.Table.{rule_size};
ghost use Rattle.ruleoutcome.specs.RuleCall.{rule_answer, ruled_of, rule_after, rule_value};

use clearing::clear;
use door::admit;
use refusal::Refusal;
use rulecopy::copy_rule;
use ruleoutcome::rule::RuleNumbers;
use rulevalue::WithTable;

// The length of a rule buffer.
const ROOM: usize = 256;

// Hands the rule of a job over to the rule buffer. A refusal leaves that; the work buffer is cleared unless the answer is refusal 1 or 2.
pub fn take_rule(file: &[u8], work: &mut [u8], rule: &mut [u8]) -> Result<RuleNumbers, Refusal>
    ensures { (said result ≡ ruled_of (rule_answer file.now (length work.old) (length rule.old)))
        × (work.new ≡ work_after (rule_answer file.now (length work.old) (length rule.old)) work.old)
        × (rule.new ≡ rule_after (rule_answer file.now (length work.old) (length rule.old)) rule.old) }
{
    let head = admit(file, work, false)?;
    if rule.len() != ROOM {
        clear(work);
        return Err(Refusal::WrongRule);
    }
    copy_rule(work, rule);
    clear(work);
    Ok(RuleNumbers {
        states: head.states,
        symbols: head.symbols,
        finals: head.finals,
    })
}

// The rule of a job by value, with its table beside the answer. The work buffer is cleared unless the answer is refusal 1 or 2.
pub fn job_rule(file: &[u8], work: &mut [u8]) -> WithTable<Result<RuleNumbers, Refusal>>
    ensures { (said_beside result ≡ rule_value (rule_answer file.now (length work.old) rule_size))
        × (work.new ≡ work_after (rule_answer file.now (length work.old) rule_size) work.old) }
{
    let mut table = [0u8; 256];
    let answer = take_rule(file, work, &mut table);
    WithTable {
        answer: answer,
        table: table,
    }
}
