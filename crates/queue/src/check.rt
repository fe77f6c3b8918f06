// The check of an area: one pass over its records, and what that needs.

pub mod area;
pub mod filter;
pub mod numbers;
pub mod reads;
pub mod rules;
pub mod scan;
pub mod suspects;
