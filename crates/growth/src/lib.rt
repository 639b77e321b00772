// Why obstacles are grown by the cart's outline: see specs/. There is no code here.
#![tactic(auto)]
