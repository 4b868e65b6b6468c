// Document 01's examples marked P, shown of the definitions. There is no code here: the table is specs/Table.antt.
#![tactic(auto)]
