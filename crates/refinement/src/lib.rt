// The registers after a call stand for what the model's call leaves: stated in specs/, proved in proofs/. There are no functions here.
#![tactic(auto)]
