// The starred samples of 01, 'Bench samples': `specs/Samples.antt` is their table, `proofs/Right.antt` its one proof.
#![tactic(auto)]
