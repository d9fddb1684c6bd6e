// The sequence clock of a list of hashes through the C face, over edge records. It checks what it is lent: it has no `requires`.
// The records are unpacked and the tables checked, then the core is asked. Nothing changes but the buffer and the place.
#![tactic(auto)]

ghost use Rattle.edges.specs.Edges.{lent};
ghost use Rattle.hub_list_clock.specs.Operations.{ClockOf};

use edges::Edge;

// The clock of the listed hashes, an entry for each actor, and how many entries that are. Answers 0; 1 where the tables are not valid; 2 where the list is no multiple of 32 bytes; 15 where the buffer has fewer entries than there are actors.
#[unsafe(no_mangle)]
pub extern "C" fn cg_clock_of(
    hashes: &[u8],
    nodes: &[u32],
    edges: &[Edge],
    clocks: &[u32],
    counts: &[u32],
    list: &[u8],
    out: &mut [u32],
    told: &mut [u64],
) -> u32
    ensures { ClockOf list.now out.old told.old result out.new told.new (lent hashes.now nodes.now edges.now clocks.now counts.now) }
{
    let mut targets = [0u32; 16384];
    let mut nexts = [0u32; 16384];
    edges::unpack(edges, &mut targets, &mut nexts);
    let Some(tables) = hub_answer::valid_tables(
        hashes, nodes, edges, &targets, &nexts, clocks, counts,
    ) else {
        return 1;
    };
    let entries = list_clock::seq_clock_for_heads(&tables, list, out);
    hub_answer::listed(entries, told)
}
