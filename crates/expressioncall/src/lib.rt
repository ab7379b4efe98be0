// Rules as expressions: a text and the number of symbols in; the rule's 256 bytes with its states and final set, or a refusal out.
#![tactic(auto)]

ghost use Rattle.refusal.specs.Refusal.{said};
ghost use Rattle.rulevalue.specs.Value.{said_beside};
ghost use Rattle.expressionrule.specs.ExpressionRule.{AnswersExpression, ValuesExpression};
ghost use Rattle.expressioncall.specs.Inner.{ReadReady, Numbers};

use expressionread::read_text;
use expressionrule::answer::Met;
use refusal::Refusal;
use rulevalue::WithTable;
use statenumbers::{final_states, number_states};

// The length of a rule buffer.
const ROOM: usize = 256;

// The length of the longest text.
const LONGEST: usize = 64;

// The most symbols.
const MOST: u64 = 16;

// Makes the rule of the expression that was read. A refusal leaves the rule buffer.
fn number_rule(
    text: &[u8],
    follow: &[u64],
    firsts: u64,
    lasts: u64,
    symbols: u64,
    rule: &mut [u8],
) -> Result<Met, Refusal>
    requires { ReadReady symbols text.now follow.now rule.old }
    ensures { Numbers symbols text.now follow.now firsts lasts rule.old rule.new (said result) }
{
    let mut sets = [0u64; 16];
    let mut cells = [0u8; 256];
    let Some(states) = number_states(
        text,
        follow,
        firsts,
        symbols as usize,
        &mut sets,
        &mut cells,
    ) else {
        return Err(Refusal::ManyStates);
    };
    let finals = final_states(&sets, states, lasts);
    rule.copy_from_slice(&cells);
    Ok(Met {
        states: states as u64,
        finals,
    })
}

// Makes a rule of an expression. A refusal leaves the rule buffer.
pub fn take_expression(text: &[u8], symbols: u64, rule: &mut [u8]) -> Result<Met, Refusal>
    ensures { AnswersExpression text.now symbols rule.old rule.new (said result) }
{
    if rule.len() != ROOM {
        return Err(Refusal::WrongRule);
    }
    if symbols < 1 || MOST < symbols || LONGEST < text.len() {
        return Err(Refusal::WrongExpression);
    }
    let mut follow = [0u64; 64];
    match read_text(text, symbols as u8, &mut follow) {
        Some(d) => number_rule(text, &follow, d.first, d.last, symbols, rule),
        None => Err(Refusal::WrongExpression),
    }
}

// The rule of an expression by value, with its table beside the answer.
pub fn expression_rule(text: &[u8], symbols: u64) -> WithTable<Result<Met, Refusal>>
    ensures { ValuesExpression text.now symbols (said_beside result) }
{
    let mut table = [0u8; 256];
    let answer = take_expression(text, symbols, &mut table);
    WithTable { answer, table }
}
