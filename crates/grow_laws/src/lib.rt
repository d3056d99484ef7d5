#![tactic(auto)]

// Theorems only: rows that stand in an array, moved, put in and read again.
