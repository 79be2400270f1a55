// Fair turns over any calls: stated in specs/ over the definitions of `model` and `promises`, proved in proofs/. There are no functions here.
#![tactic(auto)]
