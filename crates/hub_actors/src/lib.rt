// Actors in and out through the C face, over edge records. Each operation checks what it is lent: it has no `requires`.
// `cg_X` unpacks the records; `X_checked` checks the tables and calls the core. No edge changes.
// `X_checked` stands apart for the reason that `hub_forget` gives.
// Tables that are written are taken one by one: two `&mut` of one struct are lent in no call that the borrow checker covers (tried in `graph::store`).
#![tactic(auto)]

ghost use Rattle.tables.specs.Tables.{tables};
ghost use Rattle.edges.specs.Edges.{lent};
ghost use Rattle.hub_actors.specs.Operations.{Inserted, Removed};

use edges::Edge;
use tables::Tables;

// Puts an actor in at the place.
fn insert_checked(
    hashes: &[u8],
    nodes: &mut [u32],
    targets: &[u32],
    nexts: &[u32],
    clocks: &mut [u32],
    counts: &mut [u32],
    place: u64,
) -> u32
    ensures { Inserted place result nodes.new clocks.new counts.new (tables hashes.now nodes.old targets.now nexts.now clocks.old counts.old) }
{
    if !cache::valid(&Tables {
        hashes,
        nodes,
        targets,
        nexts,
        clocks,
        counts,
    }) {
        return 1;
    }
    let inserted = actors::insert_actor(hashes, nodes, targets, nexts, clocks, counts, place);
    actors::number(inserted)
}

#[unsafe(no_mangle)]
pub extern "C" fn cg_insert_actor(
    hashes: &[u8],
    nodes: &mut [u32],
    edges: &[Edge],
    clocks: &mut [u32],
    counts: &mut [u32],
    place: u64,
) -> u32
    ensures { Inserted place result nodes.new clocks.new counts.new (lent hashes.now nodes.old edges.now clocks.old counts.old) }
{
    let mut targets = [0u32; 16384];
    let mut nexts = [0u32; 16384];
    edges::unpack(edges, &mut targets, &mut nexts);
    let Some((targets, nexts)) = edges::unpacked(edges, &targets, &nexts) else {
        return 1;
    };
    insert_checked(hashes, nodes, targets, nexts, clocks, counts, place)
}

// Takes the actor at the place away.
fn remove_checked(
    hashes: &[u8],
    nodes: &mut [u32],
    targets: &[u32],
    nexts: &[u32],
    clocks: &mut [u32],
    counts: &mut [u32],
    place: u64,
) -> u32
    ensures { Removed place result nodes.new clocks.new counts.new (tables hashes.now nodes.old targets.now nexts.now clocks.old counts.old) }
{
    if !cache::valid(&Tables {
        hashes,
        nodes,
        targets,
        nexts,
        clocks,
        counts,
    }) {
        return 1;
    }
    let removed = actors::remove_actor(hashes, nodes, targets, nexts, clocks, counts, place);
    actors::number(removed)
}

#[unsafe(no_mangle)]
pub extern "C" fn cg_remove_actor(
    hashes: &[u8],
    nodes: &mut [u32],
    edges: &[Edge],
    clocks: &mut [u32],
    counts: &mut [u32],
    place: u64,
) -> u32
    ensures { Removed place result nodes.new clocks.new counts.new (lent hashes.now nodes.old edges.now clocks.old counts.old) }
{
    let mut targets = [0u32; 16384];
    let mut nexts = [0u32; 16384];
    edges::unpack(edges, &mut targets, &mut nexts);
    let Some((targets, nexts)) = edges::unpacked(edges, &targets, &nexts) else {
        return 1;
    };
    remove_checked(hashes, nodes, targets, nexts, clocks, counts, place)
}
