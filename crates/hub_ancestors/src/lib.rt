// The listed hashes outside the history of heads through the C face, over edge records. It checks what it is lent: it has no `requires`.
// The records are unpacked and the tables checked, then the core is asked. Nothing changes but the buffer and the place.
#![tactic(auto)]

ghost use Rattle.edges.specs.Edges.{lent};
ghost use Rattle.hub_ancestors.specs.Operations.{RemoveAncestors};

use edges::Edge;

// The listed hashes that lie outside the heads' history, ascending, each once, and how many bytes they take. Answers 0; 1 where the tables are not valid; 2 where the list or the heads are no multiple of 32 bytes; 15 where they are longer than the buffer.
#[unsafe(no_mangle)]
pub extern "C" fn cg_remove_ancestors(
    hashes: &[u8],
    nodes: &[u32],
    edges: &[Edge],
    clocks: &[u32],
    counts: &[u32],
    list: &[u8],
    heads: &[u8],
    out: &mut [u8],
    told: &mut [u64],
) -> u32
    ensures { RemoveAncestors list.now heads.now out.old told.old result out.new told.new (lent hashes.now nodes.now edges.now clocks.now counts.now) }
{
    let mut targets = [0u32; 16384];
    let mut nexts = [0u32; 16384];
    edges::unpack(edges, &mut targets, &mut nexts);
    let Some(tables) = hub_answer::valid_tables(
        hashes, nodes, edges, &targets, &nexts, clocks, counts,
    ) else {
        return 1;
    };
    let bytes = ancestors::remove_ancestors(&tables, list, heads, out);
    hub_answer::listed(bytes, told)
}
