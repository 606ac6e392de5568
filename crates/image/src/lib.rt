// An image's records at bit places: heights and messages, a node's row, a channel's cell, put and got.
// These are leaves: only our crates call them, with the bounds that `requires` states.
#![tactic(auto)]

pub mod cells;
pub mod records;
pub mod rows;
pub mod widths;

// Version 1: bits of the header, behind which the nodes stand, and of a depth.
pub const HEADER_LENGTH: u32 = 32;

pub const HEADER_END: usize = HEADER_LENGTH as usize;

pub const DEPTH_WIDTH: u8 = 16;

// The header's fields: version, its length, n, and spare bits to its end.
pub const VERSION_WIDTH: usize = 4;

pub const LENGTH_PLACE: usize = VERSION_WIDTH;

pub const LENGTH_WIDTH: usize = 12;

pub const COUNT_PLACE: usize = LENGTH_PLACE + LENGTH_WIDTH;

pub const COUNT_WIDTH: usize = 5;

pub const SPARE_PLACE: usize = COUNT_PLACE + COUNT_WIDTH;

pub const SPARE_WIDTH: usize = HEADER_END - SPARE_PLACE;

// A node's clock and sets, before its heights.
pub const CLOCK_WIDTH: usize = 32;

pub const NEIGHBORS_PLACE: usize = CLOCK_WIDTH;

pub const SET_WIDTH: usize = 16;

pub const FORMING_PLACE: usize = NEIGHBORS_PLACE + SET_WIDTH;

pub const NODE_HEAD: usize = FORMING_PLACE + SET_WIDTH;

// How many messages of a channel follow.
pub const WAITING_WIDTH: usize = 4;
