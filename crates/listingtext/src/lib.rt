// The lines of the listing in a buffer: definitions, and laws that `pointlines` and `listlines` cite. No code.
#![tactic(auto)]
