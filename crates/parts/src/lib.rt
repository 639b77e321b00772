// A sum in parts, as two questions, and what they mean (document 02, request W6): see specs/. There is no code here.
#![tactic(auto)]
