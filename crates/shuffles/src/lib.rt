// Demand 3, over whole operations by their calls: stated in specs/, proved in proofs/. There are no functions here.
#![tactic(auto)]
