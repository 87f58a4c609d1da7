// Definitions in specs/ and theorems in proofs/ only: the recurrence for points in height order, and that it finds the best.
#![tactic(auto)]
