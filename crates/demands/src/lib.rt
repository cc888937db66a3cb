// Demands 1 and 3 of the public calls, by what their contracts promise. There is no code here.
#![tactic(auto)]
