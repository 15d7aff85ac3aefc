// Definitions and theorems alone: lists whose entries are all below a bound, and lists that are filled from the front or from the back (specs/, proofs/).
#![tactic(auto)]
