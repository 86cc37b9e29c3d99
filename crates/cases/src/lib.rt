// No code: this crate is document 01's small graphs, as one list under one statement. Read specs/ first.
#![tactic(auto)]
