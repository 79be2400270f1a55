// What a whole operation does, without steps and queues: stated in specs/, proved equal in proofs/. There are no functions here.
#![tactic(auto)]
