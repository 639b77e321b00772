// The crate holds theory alone: see specs/.
#![tactic(auto)]
