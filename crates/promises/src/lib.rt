// What holds over many calls. There is no code here: the definitions are in specs/, the theorems in proofs/.
#![tactic(auto)]
