// The table of document 01's samples that are proved, and of the requests' (specs/), and one lemma for all its rows (proofs/).
#![tactic(auto)]
