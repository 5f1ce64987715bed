// The accuracy rule of 01, 'Colour': `specs/Accuracy.antt` states it, `proofs/Accuracy.antt` is its proof.
#![tactic(auto)]
