// One access point's record and the machine's access point: what is proved of them. The record is a struct of `structs`; no code.
#![tactic(auto)]
