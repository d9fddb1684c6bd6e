// The owner of an op through the C face, over edge records. It checks what it is lent: it has no `requires`.
// The records are unpacked and the tables checked, then the core is asked. Nothing changes but the buffer and the place.
#![tactic(auto)]

ghost use Rattle.edges.specs.Edges.{lent};
ghost use Rattle.hub_owner.specs.Operations.{OwnerOf};

use edges::Edge;

// The hash of the change that owns the op, 32 bytes. Answers 0; 1 where the tables are not valid; 14 where no change owns the op; 15 where the buffer has fewer than 32 bytes.
#[unsafe(no_mangle)]
pub extern "C" fn cg_owner(
    hashes: &[u8],
    nodes: &[u32],
    edges: &[Edge],
    clocks: &[u32],
    counts: &[u32],
    actor: u64,
    counter: u64,
    out: &mut [u8],
    told: &mut [u64],
) -> u32
    ensures { OwnerOf actor counter out.old told.old result out.new told.new (lent hashes.now nodes.now edges.now clocks.now counts.now) }
{
    let mut targets = [0u32; 16384];
    let mut nexts = [0u32; 16384];
    edges::unpack(edges, &mut targets, &mut nexts);
    let Some(tables) = hub_answer::valid_tables(
        hashes, nodes, edges, &targets, &nexts, clocks, counts,
    ) else {
        return 1;
    };
    let found = owner::opid_to_hash(&tables, actor, counter, out);
    hub_answer::listed(found, told)
}
