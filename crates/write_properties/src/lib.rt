// One writer for each property, and ipco, which holds them.
//
// Each writes into an output, behind what is written there already.

#![tactic(auto)]

pub mod auxc;
pub mod clap;
pub mod clli;
pub mod colr;
pub mod gain_map;
pub mod hvcc;
pub mod imir;
pub mod ipco;
pub mod irot;
pub mod ispe;
pub mod pixi;
