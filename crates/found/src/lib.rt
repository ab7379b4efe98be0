// What the work buffer holds when before sets, plan and classes are found: definitions, and laws that `beforesets` and `analysis` cite. No code.
#![tactic(auto)]
