// Width in every direction, and the corridor between two shapes (document 02, W9): see specs/. There is no code here.
#![tactic(auto)]
