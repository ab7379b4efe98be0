// The rule of a job on bytes: a job file, a work buffer of 65,536 bytes or more, and a rule buffer of 256.
ghost use Rattle.std.specs.Prelude.{◌≡◌, length};
ghost use Rattle.admission.specs.Admission.{work_after};
ghost use Rattle.ruleoutcome.specs.RuleCall.{rule_answer, ruled_of, rule_after, rule_number};

// Hands the rule of a job over and returns 2^48 plus states times 2^32, symbols times 2^16, and the final set, or the refusal's number. A
// refusal leaves the rule buffer; the work buffer is cleared unless that is 1 or 2.
#[unsafe(no_mangle)]
pub extern "C" fn dapohiru_rule(job: &[u8], work: &mut [u8], rule: &mut [u8]) -> u64
    ensures { (result ≡ rule_number (ruled_of (rule_answer job.now (length work.old) (length rule.old))))
        × (work.new ≡ work_after (rule_answer job.now (length work.old) (length rule.old)) work.old)
        × (rule.new ≡ rule_after (rule_answer job.now (length work.old) (length rule.old)) rule.old) }
{
    dapohiru::rule::dapohiru_rule(job, work, rule)
}
