// The dependencies of a change through the C face, over edge records. It checks what it is lent: it has no `requires`.
// The records are unpacked and the tables checked. Then it finds where the change's list of edges begins, `edges::parents_into` walks it along next
// over the records themselves, and the core tells the hashes of the nodes that the walk put down. Nothing changes but the buffer and the place.
#![tactic(auto)]

ghost use Rattle.edges.specs.Edges.{lent};
ghost use Rattle.hub_deps.specs.Operations.{DepsForHash};

use edges::Edge;

// The hashes of the change's dependencies in listed order, and how many bytes they take. Answers 0; 1 where the tables are not valid; 2 where the hash is not 32 bytes; 15 where they are longer than the buffer.
#[unsafe(no_mangle)]
pub extern "C" fn cg_deps_for_hash(
    hashes: &[u8],
    nodes: &[u32],
    edges: &[Edge],
    clocks: &[u32],
    counts: &[u32],
    hash: &[u8],
    out: &mut [u8],
    told: &mut [u64],
) -> u32
    ensures { DepsForHash hash.now out.old told.old result out.new told.new (lent hashes.now nodes.now edges.now clocks.now counts.now) }
{
    let mut targets = [0u32; 16384];
    let mut nexts = [0u32; 16384];
    edges::unpack(edges, &mut targets, &mut nexts);
    let Some(tables) = hub_answer::valid_tables(
        hashes, nodes, edges, &targets, &nexts, clocks, counts,
    ) else {
        return 1;
    };
    let mut parents = [0u32; 32];
    let first = deps::first_edge(hashes, nodes, counts, hash);
    let n = edges::parents_into(edges, first, &mut parents);
    let bytes = deps::deps_for_hash(&tables, hash, &parents, n, out);
    hub_answer::listed(bytes, told)
}
