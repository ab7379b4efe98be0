// Lines of a file: one letter, then fields of six columns, then byte 10.
#![tactic(auto)]
