#![tactic(auto)]

// Theorems only: merging equal states is the quotient by marks.
