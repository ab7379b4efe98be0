// The number that a C call returns for each answer of the calls for a rule: the rule of a job, of rows and of an expression.
#![tactic(auto)]

ghost use Rattle.std.specs.Prelude.{◌≡◌};
ghost use Rattle.reasons.specs.Reasons.{said_by};
ghost use Rattle.ruleoutcome.specs.RuleCall.{rule_number};
ghost use Rattle.rulerows.specs.RuleRows.{rows_number};
ghost use Rattle.expressionrule.specs.ExpressionRule.{expression_number};
ghost use Rattle.rulenumbers.specs.Fits.{RuleFits, ExpressionFits};

use callnumber::ACCEPTED;
use expressionrule::answer::Met;
use reasons::Reason;
use ruleoutcome::rule::RuleNumbers;

// 2^48 plus states times 2^32, symbols times 2^16, and the final set, or the refusal's number.
pub fn of_rule<E: Reason>(answer: Result<RuleNumbers, E>) -> u64
    requires { RuleFits (said_by E.number answer) }
    ensures { result ≡ rule_number (said_by E.number answer) }
{
    match answer {
        Ok(numbers) => {
            ACCEPTED + numbers.states * 4_294_967_296 + numbers.symbols * 65_536 + numbers.finals
        }
        Err(no_rule) => no_rule.number(),
    }
}

// 2^48, or the refusal's number.
pub fn of_rows<E: Reason>(answer: Result<(), E>) -> u64
    ensures { result ≡ rows_number (said_by E.number answer) }
{
    match answer {
        Ok(()) => ACCEPTED,
        Err(no_rows) => no_rows.number(),
    }
}

// 2^48 plus states times 2^16 and the final set, or the refusal's number.
pub fn of_expression<E: Reason>(answer: Result<Met, E>) -> u64
    requires { ExpressionFits (said_by E.number answer) }
    ensures { result ≡ expression_number (said_by E.number answer) }
{
    match answer {
        Ok(met) => ACCEPTED + met.states * 65_536 + met.finals,
        Err(no_expression) => no_expression.number(),
    }
}
