// Throwing all cached clocks away, from C, over edge records. It checks what it is lent: it has no `requires`.
// `cg_forget` unpacks the records; `forget_checked` checks the tables and calls the core. No edge changes.
// `forget_checked` stands apart: as one function, tried here, two references out of one answer would be lent on beside a `&mut`, which is not covered.
// Tables that are written are taken one by one: two `&mut` of one struct are lent in no call that the borrow checker covers (tried in `graph::store`).
#![tactic(auto)]

ghost use Rattle.tables.specs.Tables.{tables};
ghost use Rattle.edges.specs.Edges.{lent};
ghost use Rattle.hub_forget.specs.Operations.{Forgot};

use edges::Edge;
use tables::Tables;

fn forget_checked(
    hashes: &[u8],
    nodes: &[u32],
    targets: &[u32],
    nexts: &[u32],
    clocks: &mut [u32],
    counts: &[u32],
) -> u32
    ensures { Forgot result clocks.new (tables hashes.now nodes.now targets.now nexts.now clocks.old counts.now) }
{
    if !cache::valid(&Tables {
        hashes,
        nodes,
        targets,
        nexts,
        clocks,
        counts,
    }) {
        return 1;
    }
    cache::forget(hashes, nodes, targets, nexts, clocks, counts);
    0
}

#[unsafe(no_mangle)]
pub extern "C" fn cg_forget(
    hashes: &[u8],
    nodes: &[u32],
    edges: &[Edge],
    clocks: &mut [u32],
    counts: &[u32],
) -> u32
    ensures { Forgot result clocks.new (lent hashes.now nodes.now edges.now clocks.old counts.now) }
{
    let mut targets = [0u32; 16384];
    let mut nexts = [0u32; 16384];
    edges::unpack(edges, &mut targets, &mut nexts);
    let Some((targets, nexts)) = edges::unpacked(edges, &targets, &nexts) else {
        return 1;
    };
    forget_checked(hashes, nodes, targets, nexts, clocks, counts)
}
