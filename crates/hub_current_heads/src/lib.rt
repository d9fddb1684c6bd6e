// Whether a list is that of the heads through the C face, over edge records. It checks what it is lent: it has no `requires`.
// The records are unpacked and the tables checked, then the core is asked. Nothing changes but the buffer and the place.
#![tactic(auto)]

ghost use Rattle.edges.specs.Edges.{lent};
ghost use Rattle.hub_current_heads.specs.Operations.{HeadsAreCurrent};

use edges::Edge;

// Whether the list names exactly the heads, order and repeats ignored: 1 or 0. Answers 0; 1 where the tables are not valid; 2 where the list is no multiple of 32 bytes.
#[unsafe(no_mangle)]
pub extern "C" fn cg_heads_are_current(
    hashes: &[u8],
    nodes: &[u32],
    edges: &[Edge],
    clocks: &[u32],
    counts: &[u32],
    list: &[u8],
    told: &mut [u64],
) -> u32
    ensures { HeadsAreCurrent list.now told.old result told.new (lent hashes.now nodes.now edges.now clocks.now counts.now) }
{
    let mut targets = [0u32; 16384];
    let mut nexts = [0u32; 16384];
    edges::unpack(edges, &mut targets, &mut nexts);
    let Some(tables) = hub_answer::valid_tables(
        hashes, nodes, edges, &targets, &nexts, clocks, counts,
    ) else {
        return 1;
    };
    let current = current_heads::heads_are_current(&tables, list);
    hub_answer::yes_no(current, told)
}
