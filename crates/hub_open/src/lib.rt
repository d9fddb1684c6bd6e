// Opening an empty graph, from C, over edge records. It checks what it is lent: it has no `requires`.
// `cg_open` unpacks the records; `open_checked` checks the lengths of the tables and calls the core.
// `open_checked` stands apart for the reason that `hub_forget` gives.
// Tables that are written are taken one by one: two `&mut` of one struct are lent in no call that the borrow checker covers (tried in `graph::store`).
#![tactic(auto)]

ghost use Rattle.tables.specs.Tables.{tables};
ghost use Rattle.edges.specs.Edges.{lent};
ghost use Rattle.hub_open.specs.Operations.{Opened};

use edges::Edge;
use tables::Tables;

// Opens an empty graph for so many actors. Only the lengths of the tables are checked, and only the counts change.
fn open_checked(
    hashes: &[u8],
    nodes: &[u32],
    targets: &[u32],
    nexts: &[u32],
    clocks: &[u32],
    counts: &mut [u32],
    actors: u64,
) -> u32
    ensures { Opened actors result counts.new (tables hashes.now nodes.now targets.now nexts.now clocks.now counts.old) }
{
    if !tables::lengths_agree(&Tables {
        hashes,
        nodes,
        targets,
        nexts,
        clocks,
        counts,
    }) {
        return 1;
    }
    let opened = actors::open_empty(hashes, nodes, targets, nexts, clocks, counts, actors);
    actors::number(opened)
}

#[unsafe(no_mangle)]
pub extern "C" fn cg_open(
    hashes: &[u8],
    nodes: &[u32],
    edges: &[Edge],
    clocks: &[u32],
    counts: &mut [u32],
    actors: u64,
) -> u32
    ensures { Opened actors result counts.new (lent hashes.now nodes.now edges.now clocks.now counts.old) }
{
    let mut targets = [0u32; 16384];
    let mut nexts = [0u32; 16384];
    edges::unpack(edges, &mut targets, &mut nexts);
    let Some((targets, nexts)) = edges::unpacked(edges, &targets, &nexts) else {
        return 1;
    };
    open_checked(hashes, nodes, targets, nexts, clocks, counts, actors)
}
