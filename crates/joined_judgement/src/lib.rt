// Theorems alone, on the contracts of joining and judging: what joining makes, and that its judgement is the two judgements side by side (specs/, proofs/).
#![tactic(auto)]
