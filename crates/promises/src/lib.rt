#![tactic(auto)]

// Theorems only: demand 3, identical results, untouched slices.
