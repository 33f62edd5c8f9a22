// What is promised of the definitions: statements in specs/, their proofs in proofs/. No code.
#![tactic(auto)]
