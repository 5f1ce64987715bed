// What a call through the C interface answers and leaves: definitions alone.
#![tactic(auto)]
