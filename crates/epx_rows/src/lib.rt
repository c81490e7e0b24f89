//! Lists of numbers, one after another in one vector, and the counting sort: positions are grouped
//! by the number there, and lists are transposed.
#![tactic(auto)]

mod fill_row;
mod group_positions;
pub mod open_row;
pub mod rows;
mod slots;
mod transpose;

pub use open_row::OpenRow;
pub use rows::Rows;
