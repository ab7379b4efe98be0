// Expressions, their grammar, their language and the positions of their letters: no functions. What a rule made from one is stands in
// `expressionrule`.
#![tactic(auto)]
