// The tables of the searches in the work buffer, as definitions and laws: no code.
#![tactic(auto)]
