// One call of each kind on tables of two stations, or on their image: the number that it returns, and the pair.
use super::scene::Tables;
use refusal::{Refusal, Why};

fn none() -> Why {
    Why {
        number: 0,
        u: 0,
        v: 0,
    }
}

fn said<T: Drop>(r: Result<T, Refusal>) -> Why {
    match r {
        Ok(_) => none(),
        Err(why) => Why::from(why),
    }
}

pub fn check(t: &Tables) -> Why {
    said(lent::check(2, &t.nodes, &t.channels))
}

// Station 1 and this number as the other.
pub fn up(v: u32, t: &mut Tables) -> Why {
    said(election::up(2, 1, v, &mut t.nodes, &mut t.channels))
}

pub fn down(v: u32, t: &mut Tables) -> Why {
    said(election::down(2, 1, v, &mut t.nodes, &mut t.channels))
}

pub fn receive(v: u32, t: &mut Tables) -> Why {
    said(election::receive(2, v, 1, &mut t.nodes, &mut t.channels))
}

// Into the first `room` bytes.
pub fn save(t: &Tables, out: &mut [u8], room: usize) -> Why {
    if out.len() < room {
        return none();
    }
    said(image_snapshot::save(2, &t.nodes, &t.channels, &mut out[..room]))
}

pub fn draw(t: &Tables, out: &mut [u8], room: usize) -> Why {
    if out.len() < room {
        return none();
    }
    said(drawing::draw(2, &t.nodes, &t.channels, &mut out[..room]))
}

pub fn quiet(t: &Tables) -> Why {
    said(groups::is_quiet(2, &t.nodes, &t.channels))
}

pub fn heads(t: &Tables) -> Why {
    said(groups::heads(2, &t.nodes, &t.channels))
}

pub fn group(u: u32, t: &Tables) -> Why {
    said(groups::group_of(2, u, &t.nodes, &t.channels))
}

// Of the first `size` bytes.
pub fn restore(image: &[u8], size: usize, nodes: &mut [u32], channels: &mut [u32]) -> Why {
    if image.len() < size {
        return none();
    }
    said(image_snapshot::restore(&image[..size], nodes, channels))
}

pub fn look(image: &[u8], k: u32, place: u64) -> Why {
    said(image_snapshot::read_node(image, k, place, &mut [0; 14]))
}
