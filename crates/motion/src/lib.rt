// Where a place that moves straight first meets a shape: see specs/. There is no code here.
#![tactic(auto)]
