// What Motorola's manual says of some instructions: definitions and laws, and no code.
#![tactic(auto)]
