// The lent tables as words: a node's row, a channel's cell, and the few operations that touch them.
// These are leaves: only our crates call them, with the bounds that `requires` states.
#![tactic(auto)]

pub mod cells;
pub mod rows;

pub use height::words::HEIGHT_SIZE;

// Words of a row before its heights (clock, N, F), and of a message: its height and its timestamp.
pub const ROW_HEAD: usize = 3;

pub const MESSAGE_SIZE: usize = HEIGHT_SIZE + 1;

// Messages that a channel holds, and words of its cell: the count, then a slot for each.
pub const CAPACITY: usize = 8;

pub const CELL_WIDTH: usize = 1 + CAPACITY * MESSAGE_SIZE;

// Words of a row and of both tables for 16 nodes, the most there are.
pub const MOST_ROW: usize = ROW_HEAD + HEIGHT_SIZE * 16;

pub const MOST_NODES: usize = 16 * MOST_ROW;

pub const MOST_CHANNELS: usize = 16 * 16 * CELL_WIDTH;
