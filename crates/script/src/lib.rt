// Document 01, "Floor rehearsal": what a script says and what it prints, over lists. Definitions and their laws; no code.
#![tactic(auto)]
