// Our own choice as a settings packet: written, read back and checked. Definitions and a theorem, no function.
#![tactic(auto)]
