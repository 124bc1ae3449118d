// One side's whole record tells nothing but the answer. Theorems only.
#![tactic(auto)]
