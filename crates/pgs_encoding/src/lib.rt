// The bytes of a segment from its fields, what can be written, and the cut stream (01, module 5 and 'The cut stream'): definitions
// alone. `specs/Demand3.antt` says what is proved of them.
#![tactic(auto)]
