#![tactic(auto)]

// Theorems only: facts about lists, tests, rows and what a call writes that no library of the toolchain has.
