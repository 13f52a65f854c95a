// Chains and rings of a partial map: definitions and laws only (see specs/).
#![tactic(auto)]
