// The station lines.
ghost use Rattle.std.specs.Prelude.{[], ◌≡◌, ◌+◌, ◌*◌, ◌^◌, ◌≤◌, ◌<◌, length};
ghost use Rattle.protocol.specs.Network.{Node};
ghost use Rattle.tables.specs.Tables.{tables, width};
ghost use Rattle.text.specs.inner.Poured.{poured};
ghost use Rattle.bench_run.specs.inner.OnTables.{station_line_on, station_lines_on};

// Node u's line.
fn station(n: u32, u: u32, nodes: &[u32], out: &mut [u8], at: usize) -> usize
    requires { (n ≤ 16) × Node n u × (length nodes.now ≡ n * width n) × (at < 2 ^ 30) }
    ensures { (out.new ≡ poured out.old at (station_line_on n (tables nodes.now []) u))
        × (result ≡ at + length (station_line_on n (tables nodes.now []) u)) × (result ≤ at + 33) }
{
    let row = tables::rows::node(n, u, nodes);
    let own = tables::rows::height_in(n, row, u);
    super::lines::put_station(out, at, u, own.pair.lid, tables::rows::clock(row).0)
}

// Every node's line.
pub fn stations(n: u32, nodes: &[u32], out: &mut [u8], at: usize) -> usize
    requires { (n ≤ 16) × (length nodes.now ≡ n * width n) × (at < 2 ^ 29) }
    ensures { (out.new ≡ poured out.old at (station_lines_on n (tables nodes.now [])))
        × (result ≡ at + length (station_lines_on n (tables nodes.now []))) }
{
    let mut offset = at;
    for u in 1..n + 1 {
        offset = station(n, u, nodes, out, offset);
    }
    offset
}
