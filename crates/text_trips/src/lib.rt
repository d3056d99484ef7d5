#![tactic(auto)]

// Theorems only: a text that was written is read as the table, and one that was read is written as it was.
