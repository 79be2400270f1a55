// A bench sheet is its calls: stated in specs/, proved in proofs/. There are no functions here.
#![tactic(auto)]
