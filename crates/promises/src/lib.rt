// Promises over any calls: stated in specs/ over the definitions of `model`, proved in proofs/. There are no functions here.
#![tactic(auto)]
