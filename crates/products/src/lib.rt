// Theorems only: products of a public polynomial and a shared one, row by row at both sides, join to the product; a run may start from any
// of its coefficients. `ring_product` and `begin` fit together.
#![tactic(auto)]
