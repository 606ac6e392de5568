// The whole list, in tables for three nodes.
ghost use Rattle.std.specs.Prelude.{◌≡◌, ◌+◌, ◌*◌, ◌/◌, ◌^◌, ◌≤◌, ◌<◌, length};
ghost use Rattle.enumeration.specs.Histories.{histories};
ghost use Rattle.enumeration.specs.Texts.{list_text};
ghost use Rattle.protocol.specs.Network.{fresh};
ghost use Rattle.tables.specs.Tables.{tables};
ghost use Rattle.tables.specs.inner.Fit.{Sized};
ghost use Rattle.text.specs.inner.Poured.{poured};

use super::Path;

// Words of both tables for three nodes, the most there are here.
const NODES: usize = 3 * (tables::ROW_HEAD + tables::HEIGHT_SIZE * 3);

const CHANNELS: usize = 3 * 3 * tables::CELL_WIDTH;

fn with_tables(n: u32, k: u32, nodes: &mut [u32], channels: &mut [u32], out: &mut [u8]) -> usize
    requires { Sized n (tables nodes.old channels.old) × (n ≤ 3) × (k ≤ 5) }
    ensures { (out.new ≡ poured out.old 0 (list_text n (histories n k fresh))) × (result ≡ length (list_text n (histories n k fresh))) }
{
    let _ = lent::fresh(n, nodes, channels);
    let start = Path {
        n: n,
        events: 0,
        code: 0,
    };
    super::explore::explore(start, k, nodes, channels, out, 0)
}

// The list as far as the bytes reach, and its length.
pub fn plot(n: u32, k: u32, out: &mut [u8]) -> usize
    requires { (1 ≤ n) × (n ≤ 3) × (k ≤ 5) }
    ensures { (out.new ≡ poured out.old 0 (list_text n (histories n k fresh))) × (result ≡ length (list_text n (histories n k fresh))) }
{
    let mut nodes = [0u32; NODES];
    let mut channels = [0u32; CHANNELS];
    let m = n as usize;
    let a = m * (tables::ROW_HEAD + tables::HEIGHT_SIZE * m);
    let b = m * m * tables::CELL_WIDTH;
    with_tables(n, k, &mut nodes[..a], &mut channels[..b], out)
}

pub fn size(n: u32, k: u32) -> usize
    requires { (1 ≤ n) × (n ≤ 3) × (k ≤ 5) }
    ensures { result ≡ length (list_text n (histories n k fresh)) }
{
    let mut scratch = [0u8; 1];
    plot(n, k, &mut scratch)
}

// How many histories of k events a text has: each takes 4 + 6 k bytes.
pub fn count(size: usize, k: u32) -> u32
    requires { (size < 2 ^ 30) × (k ≤ 5) }
    ensures { result ≡ size / (4 + 6 * k) }
{
    size as u32 / (4 + 6 * k)
}
