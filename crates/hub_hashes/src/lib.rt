// The hash of a change, by its node or by its actor and sequence, through the C face, over edge records. Each question checks what it is lent: it has no `requires`.
// The records are unpacked and the tables checked, then the core is asked. Nothing changes but the buffer and the place.
#![tactic(auto)]

ghost use Rattle.edges.specs.Edges.{lent};
ghost use Rattle.hub_hashes.specs.Operations.{IndexToHash, HashForActorSeq};

use edges::Edge;

// The hash of the node, 32 bytes. Answers 0; 1 where the tables are not valid; 13 where there is no such node; 15 where the buffer has fewer than 32 bytes.
#[unsafe(no_mangle)]
pub extern "C" fn cg_index_to_hash(
    hashes: &[u8],
    nodes: &[u32],
    edges: &[Edge],
    clocks: &[u32],
    counts: &[u32],
    index: u64,
    out: &mut [u8],
    told: &mut [u64],
) -> u32
    ensures { IndexToHash index out.old told.old result out.new told.new (lent hashes.now nodes.now edges.now clocks.now counts.now) }
{
    let mut targets = [0u32; 16384];
    let mut nexts = [0u32; 16384];
    edges::unpack(edges, &mut targets, &mut nexts);
    let Some(tables) = hub_answer::valid_tables(
        hashes, nodes, edges, &targets, &nexts, clocks, counts,
    ) else {
        return 1;
    };
    let bytes = lookups::index_to_hash(&tables, index, out);
    hub_answer::listed(bytes, told)
}

// The hash of the actor's change with the sequence, 32 bytes. Answers 0; 1 where the tables are not valid; 13 where there is no such change; 15 where the buffer has fewer than 32 bytes.
#[unsafe(no_mangle)]
pub extern "C" fn cg_get_hash_for_actor_seq(
    hashes: &[u8],
    nodes: &[u32],
    edges: &[Edge],
    clocks: &[u32],
    counts: &[u32],
    actor: u64,
    seq: u64,
    out: &mut [u8],
    told: &mut [u64],
) -> u32
    ensures { HashForActorSeq actor seq out.old told.old result out.new told.new (lent hashes.now nodes.now edges.now clocks.now counts.now) }
{
    let mut targets = [0u32; 16384];
    let mut nexts = [0u32; 16384];
    edges::unpack(edges, &mut targets, &mut nexts);
    let Some(tables) = hub_answer::valid_tables(
        hashes, nodes, edges, &targets, &nexts, clocks, counts,
    ) else {
        return 1;
    };
    let found = lookups::get_hash_for_actor_seq(&tables, actor, seq, out);
    hub_answer::listed(found, told)
}
