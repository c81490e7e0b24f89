//! Laws of answers: the definitions of `epx_tool` mean what they should. Each contract is a law,
//! and the functions call the laws that theirs rest on.
#![tactic(auto)]

pub mod answers;
pub mod checks;
pub mod reports;
