// Definitions and theorems alone: nested fixpoints, plain rounds and tree-restricted values of any monotone query (specs/, proofs/).
#![tactic(auto)]
