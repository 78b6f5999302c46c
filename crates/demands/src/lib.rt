// What the project promises, as theorems about the contracts of the calls. There is no code here: specs/Demands.antt has the statements, and
// proofs/Demands.antt their proofs.
#![tactic(auto)]
