// The bytes of one display set, which by themselves are a stream of that set: definitions and laws alone.
#![tactic(auto)]
