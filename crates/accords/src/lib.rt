// No code: this crate holds what the functions of several crates say of one another. Read proofs/.
#![tactic(auto)]
