// What a file is made of, before its numbers are worked out: its items and their ids, what its form, its grid, its records and its Exif
// decide, and the lengths of the gain map's payloads.

#![tactic(auto)]

pub mod brands;
pub mod exif;
pub mod form;
pub mod grid;
pub mod items;
pub mod payloads;
pub mod shape;
