// Reader and writer agree: what was written reads back, and what was read is written back. There is no code here: what
// the laws say is in specs/, the laws are in proofs/.
#![tactic(auto)]
