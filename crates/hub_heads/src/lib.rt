// The heads through the C face, over edge records. Each question checks what it is lent: it has no `requires`.
// The records are unpacked and the tables checked, then the core is asked. Nothing changes but the buffer and the place.
#![tactic(auto)]

ghost use Rattle.edges.specs.Edges.{lent};
ghost use Rattle.hub_heads.specs.Operations.{HeadsOf, HeadIndexes};

use edges::Edge;

// The heads' hashes, ascending, and how many bytes they take. Answers 0; 1 where the tables are not valid; 15 where they are longer than the buffer.
#[unsafe(no_mangle)]
pub extern "C" fn cg_heads(
    hashes: &[u8],
    nodes: &[u32],
    edges: &[Edge],
    clocks: &[u32],
    counts: &[u32],
    out: &mut [u8],
    told: &mut [u64],
) -> u32
    ensures { HeadsOf out.old told.old result out.new told.new (lent hashes.now nodes.now edges.now clocks.now counts.now) }
{
    let mut targets = [0u32; 16384];
    let mut nexts = [0u32; 16384];
    edges::unpack(edges, &mut targets, &mut nexts);
    let Some(tables) = hub_answer::valid_tables(
        hashes, nodes, edges, &targets, &nexts, clocks, counts,
    ) else {
        return 1;
    };
    let bytes = heads::heads(&tables, out);
    hub_answer::listed(bytes, told)
}

// The heads' nodes, in the order of their hashes, and how many they are. Answers 0; 1 where the tables are not valid; 15 where there are more than the buffer has entries.
#[unsafe(no_mangle)]
pub extern "C" fn cg_head_indexes(
    hashes: &[u8],
    nodes: &[u32],
    edges: &[Edge],
    clocks: &[u32],
    counts: &[u32],
    out: &mut [u32],
    told: &mut [u64],
) -> u32
    ensures { HeadIndexes out.old told.old result out.new told.new (lent hashes.now nodes.now edges.now clocks.now counts.now) }
{
    let mut targets = [0u32; 16384];
    let mut nexts = [0u32; 16384];
    edges::unpack(edges, &mut targets, &mut nexts);
    let Some(tables) = hub_answer::valid_tables(
        hashes, nodes, edges, &targets, &nexts, clocks, counts,
    ) else {
        return 1;
    };
    let indexes = heads::head_indexes(&tables, out);
    hub_answer::listed(indexes, told)
}
