//! The registers of a call by the calling convention of RISC-V: a7 has its number, the others its arguments, and then its results.

pub const A0: usize = 10;

pub const A1: usize = 11;

pub const A2: usize = 12;

pub const A3: usize = 13;

pub const A4: usize = 14;

pub const A5: usize = 15;

pub const A6: usize = 16;

pub const A7: usize = 17;

/// How many of them come after a0.
pub const FIELDS: usize = 7;
