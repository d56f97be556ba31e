// The forms of the bench console's words (docs/CONSOLE.md): numbers and bytes.
#![tactic(auto)]

pub mod numbers;
pub mod pairs;
