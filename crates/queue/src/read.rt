// The reading calls.

pub mod entry;
pub mod fees;
pub mod find;
pub mod links;
pub mod parents;
pub mod pieces;
pub mod reading;
pub mod reserved;
pub mod select;
pub mod sorted;
