// The listing of an input: the plot that its first line names, or "bad plot".
ghost use Rattle.std.specs.Prelude.{◌≡◌, ◌*◌, ◌≤◌, length, drop};
ghost use Rattle.commands.specs.Commands.{lines_of};
ghost use Rattle.tables.specs.Tables.{tables};
ghost use Rattle.tables.specs.inner.Fit.{Sized};
ghost use Rattle.text.specs.inner.Poured.{poured};
ghost use Rattle.bench_run.specs.Listing.{plot_listing, listing};

use tables::{MOST_CHANNELS, MOST_NODES};

// The listing of a plot of n nodes in tables of the right sizes, whose event lines start at an offset of the input.
fn with_tables(
    input: &[u8],
    from: usize,
    n: u32,
    nodes: &mut [u32],
    channels: &mut [u32],
    out: &mut [u8],
) -> usize
    requires { Sized n (tables nodes.old channels.old) × (length input.now ≤ 65536) }
    ensures { (out.new ≡ poured out.old 0 (plot_listing n (lines_of (drop from input.now))))
        × (result ≡ length (plot_listing n (lines_of (drop from input.now)))) }
{
    let _ = lent::fresh(n, nodes, channels);
    let a = super::lines::put_event_head(out, 0);
    let b = super::events::lines(input, from, n, nodes, channels, out, a);
    let c = super::lines::put_station_head(out, b);
    super::stations::stations(n, nodes, out, c)
}

fn plot(input: &[u8], from: usize, n: u32, out: &mut [u8]) -> usize
    requires { (1 ≤ n) × (n ≤ 16) × (length input.now ≤ 65536) }
    ensures { (out.new ≡ poured out.old 0 (plot_listing n (lines_of (drop from input.now))))
        × (result ≡ length (plot_listing n (lines_of (drop from input.now)))) }
{
    let mut nodes = [0u32; MOST_NODES];
    let mut channels = [0u32; MOST_CHANNELS];
    let k = n as usize;
    let a = k * (tables::ROW_HEAD + tables::HEIGHT_SIZE * k);
    let b = k * k * tables::CELL_WIDTH;
    with_tables(input, from, n, &mut nodes[..a], &mut channels[..b], out)
}

// Any input; the listing as far as the bytes reach, and its length.
pub fn list(input: &[u8], out: &mut [u8]) -> usize
    ensures { (out.new ≡ poured out.old 0 (listing input.now)) × (result ≡ length (listing input.now)) }
{
    if (input.len() < 1) | (65536 < input.len()) {
        return super::lines::put_bad_plot(out);
    }
    let end = commands::line_end(input, 0);
    let Some(n) = commands::head(&input[..end]) else {
        return super::lines::put_bad_plot(out);
    };
    plot(input, end + 1, n, out)
}
