// Definitions and theorems alone: what a system of lines and levels is, its query, that a query is monotone, and two systems joined in one (specs/, proofs/).
#![tactic(auto)]
