#![tactic(auto)]

// Theorems only: what build and unite make are trees, and what a tree says of each beginning.
