#![tactic(auto)]

// Theorems only: what text in and text out share.
