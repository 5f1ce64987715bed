// One code of the run-length code: 01, 'Run-length code'.
#![tactic(auto)]

pub mod code;
