// Theorems alone: reading what was written gives that model, and writing what was read gives that file, or the new file of an old one's model (proofs/).
#![tactic(auto)]
