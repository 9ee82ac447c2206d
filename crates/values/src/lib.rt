// The values on record that are to be proved: one table, specs/Values.antt, proved as a whole. The crate has no code.
#![tactic(auto)]
