// Loading decoded columns into a graph, from C, over edge records. It checks what it is lent: it has no `requires`.
// `cg_load` unpacks the records and packs them again; between the two `load_checked` checks the lengths and calls the core.
// `load_checked` stands apart: the first edges of two local tables are lent to it by `&mut`, and packed again after it.
// Tables that are written are taken one by one: two `&mut` of one struct are lent in no call that the borrow checker covers (tried in `graph::store`).
#![tactic(auto)]

ghost use Rattle.std.specs.Prelude.{◌≡◌};
ghost use Rattle.tables.specs.Tables.{tables};
ghost use Rattle.columns.specs.Columns.{columns, listed};
ghost use Rattle.edges.specs.Edges.{lent};
ghost use Rattle.hub_load.specs.Operations.{Loaded};

use columns::Columns;
use edges::Edge;
use tables::Tables;

// Judges the columns and, where they are accepted, replaces what the tables hold. On every number but 0 nothing changes.
fn load_checked(
    hashes: &mut [u8],
    nodes: &mut [u32],
    targets: &mut [u32],
    nexts: &mut [u32],
    clocks: &mut [u32],
    counts: &mut [u32],
    listing: &Columns,
) -> u32
    ensures { Loaded (listed listing.now) (tables hashes.old nodes.old targets.old nexts.old clocks.old counts.old) result (tables hashes.new nodes.new targets.new nexts.new clocks.new counts.new) }
{
    if !tables::lengths_agree(&Tables {
        hashes,
        nodes,
        targets,
        nexts,
        clocks,
        counts,
    }) {
        return 1;
    }
    let loaded = load::load(hashes, nodes, targets, nexts, clocks, counts, listing);
    columns::number(loaded)
}

#[unsafe(no_mangle)]
pub extern "C" fn cg_load(
    hashes: &mut [u8],
    nodes: &mut [u32],
    edges: &mut [Edge],
    clocks: &mut [u32],
    counts: &mut [u32],
    ids: &[u8],
    actors: &[u64],
    seqs: &[u64],
    maxes: &[u64],
    ops: &[u64],
    deps: &[u64],
    values: &[u64],
    heads: &[u8],
    count: u64,
) -> u32
    ensures { Loaded (columns ids.now actors.now seqs.now maxes.now ops.now deps.now values.now heads.now count) (lent hashes.old nodes.old edges.old clocks.old counts.old) result (lent hashes.new nodes.new edges.new clocks.new counts.new) }
{
    let e = edges.len();
    if 16384 < e {
        return 1;
    }
    let listing = Columns {
        ids,
        actors,
        seqs,
        maxes,
        ops,
        deps,
        values,
        heads,
        count,
    };
    let mut targets = [0u32; 16384];
    let mut nexts = [0u32; 16384];
    edges::unpack(edges, &mut targets, &mut nexts);
    let r = load_checked(
        hashes,
        nodes,
        &mut targets[..e],
        &mut nexts[..e],
        clocks,
        counts,
        &listing,
    );
    edges::pack(&targets, &nexts, edges);
    r
}
