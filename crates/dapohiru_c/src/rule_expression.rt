// Rules as expressions on bytes: a text with the number of symbols, and a rule buffer of 256 bytes.
ghost use Rattle.expressionrule.specs.ExpressionRule.{NumbersExpression};

// Makes a rule of an expression and returns 2^48 plus states times 2^16 and the final set, or the refusal's number. A refusal leaves the rule buffer.
#[unsafe(no_mangle)]
pub extern "C" fn dapohiru_expression(text: &[u8], symbols: u64, rule: &mut [u8]) -> u64
    ensures { NumbersExpression text.now symbols rule.old rule.new result }
{
    dapohiru::rule_expression::dapohiru_expression(text, symbols, rule)
}
