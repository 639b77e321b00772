// Definitions of document 01 and their theory: see specs/. There is no code here.
#![tactic(auto)]
