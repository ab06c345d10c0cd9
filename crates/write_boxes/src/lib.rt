// One writer for each box that stands by itself: ftyp, hdlr, pitm, grpl, idat, mdat.

#![tactic(auto)]

pub mod ftyp;
pub mod grpl;
pub mod hdlr;
pub mod idat;
pub mod mdat;
pub mod pitm;
