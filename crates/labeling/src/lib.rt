// Definitions in specs/ and theorems in proofs/ only: points, pixels, margin columns, marks, validity, conflicts of pairs, and the best.
#![tactic(auto)]
