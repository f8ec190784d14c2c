// The papers' cases as theorems about the definitions: see specs/Cases.antt. There is no code here.
#![tactic(auto)]
