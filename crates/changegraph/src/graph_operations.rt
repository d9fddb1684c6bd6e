// What changes the graph, from C: opening, adding, actors in and out, loading, and throwing cached clocks away.
ghost use Rattle.judge.specs.Judge.{change};
ghost use Rattle.columns.specs.Columns.{columns};
ghost use Rattle.edges.specs.Edges.{lent};
ghost use Rattle.hub_open.specs.Operations.{Opened};
ghost use Rattle.hub_add.specs.Operations.{Added};
ghost use Rattle.hub_actors.specs.Operations.{Inserted, Removed};
ghost use Rattle.hub_load.specs.Operations.{Loaded};
ghost use Rattle.hub_forget.specs.Operations.{Forgot};

use edges::Edge;

#[unsafe(no_mangle)]
pub extern "C" fn cg_open(
    hashes: &[u8],
    nodes: &[u32],
    edges: &[Edge],
    clocks: &[u32],
    counts: &mut [u32],
    actors: u64,
) -> u32
    ensures { Opened actors result counts.new (lent hashes.now nodes.now edges.now clocks.now counts.old) }
{
    hub_open::cg_open(hashes, nodes, edges, clocks, counts, actors)
}

#[unsafe(no_mangle)]
pub extern "C" fn cg_add(
    hashes: &mut [u8],
    nodes: &mut [u32],
    edges: &mut [Edge],
    clocks: &mut [u32],
    counts: &mut [u32],
    hash: &[u8],
    actor: u64,
    seq: u64,
    max: u64,
    ops: u64,
    deps: &[u8],
    unknown: &mut [u64],
) -> u32
    ensures { Added (change hash.now actor seq max ops deps.now) unknown.old unknown.new (lent hashes.old nodes.old edges.old clocks.old counts.old) result (lent hashes.new nodes.new edges.new clocks.new counts.new) }
{
    hub_add::cg_add(
        hashes, nodes, edges, clocks, counts, hash, actor, seq, max, ops, deps, unknown,
    )
}

#[unsafe(no_mangle)]
pub extern "C" fn cg_insert_actor(
    hashes: &[u8],
    nodes: &mut [u32],
    edges: &[Edge],
    clocks: &mut [u32],
    counts: &mut [u32],
    place: u64,
) -> u32
    ensures { Inserted place result nodes.new clocks.new counts.new (lent hashes.now nodes.old edges.now clocks.old counts.old) }
{
    hub_actors::cg_insert_actor(hashes, nodes, edges, clocks, counts, place)
}

#[unsafe(no_mangle)]
pub extern "C" fn cg_remove_actor(
    hashes: &[u8],
    nodes: &mut [u32],
    edges: &[Edge],
    clocks: &mut [u32],
    counts: &mut [u32],
    place: u64,
) -> u32
    ensures { Removed place result nodes.new clocks.new counts.new (lent hashes.now nodes.old edges.now clocks.old counts.old) }
{
    hub_actors::cg_remove_actor(hashes, nodes, edges, clocks, counts, place)
}

#[unsafe(no_mangle)]
pub extern "C" fn cg_load(
    hashes: &mut [u8],
    nodes: &mut [u32],
    edges: &mut [Edge],
    clocks: &mut [u32],
    counts: &mut [u32],
    ids: &[u8],
    actors: &[u64],
    seqs: &[u64],
    maxes: &[u64],
    ops: &[u64],
    deps: &[u64],
    values: &[u64],
    heads: &[u8],
    count: u64,
) -> u32
    ensures { Loaded (columns ids.now actors.now seqs.now maxes.now ops.now deps.now values.now heads.now count) (lent hashes.old nodes.old edges.old clocks.old counts.old) result (lent hashes.new nodes.new edges.new clocks.new counts.new) }
{
    hub_load::cg_load(
        hashes, nodes, edges, clocks, counts, ids, actors, seqs, maxes, ops, deps, values, heads,
        count,
    )
}

#[unsafe(no_mangle)]
pub extern "C" fn cg_forget(
    hashes: &[u8],
    nodes: &[u32],
    edges: &[Edge],
    clocks: &mut [u32],
    counts: &[u32],
) -> u32
    ensures { Forgot result clocks.new (lent hashes.now nodes.now edges.now clocks.old counts.now) }
{
    hub_forget::cg_forget(hashes, nodes, edges, clocks, counts)
}
