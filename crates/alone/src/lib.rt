// One voiced run alone has the full trajectory's values: `specs/` says it, and `proofs/` proves it, of the promises of the crates below.
#![tactic(auto)]
