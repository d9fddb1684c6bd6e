// Looking a hash up through the C face, over edge records. Each question checks what it is lent: it has no `requires`.
// The records are unpacked and the tables checked, then the core is asked. Nothing changes but the buffer and the place.
#![tactic(auto)]

ghost use Rattle.edges.specs.Edges.{lent};
ghost use Rattle.hub_lookups.specs.Operations.{HashToIndex, HasChange};

use edges::Edge;

// The node that has the hash. Answers 0; 1 where the tables are not valid; 2 where the hash is not 32 bytes; 13 where it is not known.
#[unsafe(no_mangle)]
pub extern "C" fn cg_hash_to_index(
    hashes: &[u8],
    nodes: &[u32],
    edges: &[Edge],
    clocks: &[u32],
    counts: &[u32],
    hash: &[u8],
    told: &mut [u64],
) -> u32
    ensures { HashToIndex hash.now told.old result told.new (lent hashes.now nodes.now edges.now clocks.now counts.now) }
{
    let mut targets = [0u32; 16384];
    let mut nexts = [0u32; 16384];
    edges::unpack(edges, &mut targets, &mut nexts);
    let Some(tables) = hub_answer::valid_tables(
        hashes, nodes, edges, &targets, &nexts, clocks, counts,
    ) else {
        return 1;
    };
    let index = lookups::hash_to_index(&tables, hash);
    hub_answer::listed(index, told)
}

// Whether the hash is known: 1 or 0. Answers 0; 1 where the tables are not valid; 2 where the hash is not 32 bytes.
#[unsafe(no_mangle)]
pub extern "C" fn cg_has_change(
    hashes: &[u8],
    nodes: &[u32],
    edges: &[Edge],
    clocks: &[u32],
    counts: &[u32],
    hash: &[u8],
    told: &mut [u64],
) -> u32
    ensures { HasChange hash.now told.old result told.new (lent hashes.now nodes.now edges.now clocks.now counts.now) }
{
    let mut targets = [0u32; 16384];
    let mut nexts = [0u32; 16384];
    edges::unpack(edges, &mut targets, &mut nexts);
    let Some(tables) = hub_answer::valid_tables(
        hashes, nodes, edges, &targets, &nexts, clocks, counts,
    ) else {
        return 1;
    };
    let known = lookups::has_change(&tables, hash);
    hub_answer::yes_no(known, told)
}
