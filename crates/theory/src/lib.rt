#![tactic(auto)]

// No code: this crate is the mathematics that the other crates' contracts cite. Read specs/ first.
