// Whether the graph is chained through the C face, over edge records. It checks what it is lent: it has no `requires`.
// The records are unpacked and the tables checked, then the core is asked. Nothing changes but the buffer and the place.
#![tactic(auto)]

ghost use Rattle.edges.specs.Edges.{lent};
ghost use Rattle.hub_chained.specs.Operations.{IsChained};

use edges::Edge;

// Whether every change with sequence 2 or more names its actor's preceding change among its own dependencies: 1 or 0. Answers 0, or 1 where the tables are not valid.
#[unsafe(no_mangle)]
pub extern "C" fn cg_chained(
    hashes: &[u8],
    nodes: &[u32],
    edges: &[Edge],
    clocks: &[u32],
    counts: &[u32],
    told: &mut [u64],
) -> u32
    ensures { IsChained told.old result told.new (lent hashes.now nodes.now edges.now clocks.now counts.now) }
{
    let mut targets = [0u32; 16384];
    let mut nexts = [0u32; 16384];
    edges::unpack(edges, &mut targets, &mut nexts);
    let Some(tables) = hub_answer::valid_tables(
        hashes, nodes, edges, &targets, &nexts, clocks, counts,
    ) else {
        return 1;
    };
    let yes = chained::is_chained(&tables);
    hub_answer::yes(yes, told)
}
