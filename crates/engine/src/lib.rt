#![tactic(auto)]

// No code yet: this crate is the folding engine on plain values. Read specs/ first.
