// The laws of document 01, "When many shapes come together": see specs/. There is no code here.
#![tactic(auto)]
