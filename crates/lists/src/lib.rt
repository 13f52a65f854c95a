// Lists, counts, orders and tables: definitions and laws only (see specs/).
#![tactic(auto)]
