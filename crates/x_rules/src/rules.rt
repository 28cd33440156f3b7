//! The rules, family by family.

pub mod cases;
pub mod classes;
pub mod constants;
pub mod duplicates;
pub mod first_places;
pub mod found;
pub mod heights;
pub mod keys;
pub mod meanings;
pub mod mentioned;
pub mod packed_numbers;
pub mod repeats;
pub mod sights;
pub mod words;
