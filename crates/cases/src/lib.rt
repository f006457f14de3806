// Worked cases over the definitions of the crates below: the table of ten as one statement, which `specs/Table.antt` says and `proofs/Table.antt` proves, and those of words, `specs/ReadAlong.antt`.
#![tactic(auto)]
