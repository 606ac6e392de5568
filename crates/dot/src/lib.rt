// The text of a plot in the DOT language of Graphviz (document 02 [2]), both ways: its lines are written, and a text's form is found.
// These are leaves: only our crates call them, with the bounds that `requires` states. What the numbers mean is the crate `drawing`.
#![tactic(auto)]

pub mod lines;
pub mod sketch;

// An edge: its two numbers as they stand in its line.
#[derive(Clone, Copy)]
pub struct Edge {
    pub first: u32,
    pub second: u32,
}

// The form of a text: how many node lines it has, and where its edge lines start.
#[derive(Clone, Copy)]
pub struct Form {
    pub nodes: u32,
    pub edges: usize,
}
