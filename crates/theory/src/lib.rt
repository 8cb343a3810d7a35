// The mathematics of placing: definitions in specs/, and theorems about them in proofs/. There is nothing here to run.
#![tactic(auto)]
