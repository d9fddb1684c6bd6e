// Sequences and max ops through the C face, over edge records. Each question checks what it is lent: it has no `requires`.
// The records are unpacked and the tables checked, then the core is asked. Nothing changes but the buffer and the place.
#![tactic(auto)]

ghost use Rattle.edges.specs.Edges.{lent};
ghost use Rattle.hub_counts.specs.Operations.{SeqForActor, MaxOpForActor, MaxOp};

use edges::Edge;

// How many changes the actor has, 0 for an unknown one. Answers 0, or 1 where the tables are not valid.
#[unsafe(no_mangle)]
pub extern "C" fn cg_seq_for_actor(
    hashes: &[u8],
    nodes: &[u32],
    edges: &[Edge],
    clocks: &[u32],
    counts: &[u32],
    actor: u64,
    told: &mut [u64],
) -> u32
    ensures { SeqForActor actor told.old result told.new (lent hashes.now nodes.now edges.now clocks.now counts.now) }
{
    let mut targets = [0u32; 16384];
    let mut nexts = [0u32; 16384];
    edges::unpack(edges, &mut targets, &mut nexts);
    let Some(tables) = hub_answer::valid_tables(
        hashes, nodes, edges, &targets, &nexts, clocks, counts,
    ) else {
        return 1;
    };
    let seq = lookups::seq_for_actor(&tables, actor);
    hub_answer::count(u64::from(seq), told)
}

// The max op of the actor's last change, 0 for none. Answers 0, or 1 where the tables are not valid.
#[unsafe(no_mangle)]
pub extern "C" fn cg_max_op_for_actor(
    hashes: &[u8],
    nodes: &[u32],
    edges: &[Edge],
    clocks: &[u32],
    counts: &[u32],
    actor: u64,
    told: &mut [u64],
) -> u32
    ensures { MaxOpForActor actor told.old result told.new (lent hashes.now nodes.now edges.now clocks.now counts.now) }
{
    let mut targets = [0u32; 16384];
    let mut nexts = [0u32; 16384];
    edges::unpack(edges, &mut targets, &mut nexts);
    let Some(tables) = hub_answer::valid_tables(
        hashes, nodes, edges, &targets, &nexts, clocks, counts,
    ) else {
        return 1;
    };
    let last = lookups::max_op_for_actor(&tables, actor);
    hub_answer::count(u64::from(last), told)
}

// The largest max op of all changes, 0 for none. Answers 0, or 1 where the tables are not valid.
#[unsafe(no_mangle)]
pub extern "C" fn cg_max_op(
    hashes: &[u8],
    nodes: &[u32],
    edges: &[Edge],
    clocks: &[u32],
    counts: &[u32],
    told: &mut [u64],
) -> u32
    ensures { MaxOp told.old result told.new (lent hashes.now nodes.now edges.now clocks.now counts.now) }
{
    let mut targets = [0u32; 16384];
    let mut nexts = [0u32; 16384];
    edges::unpack(edges, &mut targets, &mut nexts);
    let Some(tables) = hub_answer::valid_tables(
        hashes, nodes, edges, &targets, &nexts, clocks, counts,
    ) else {
        return 1;
    };
    let most = lookups::max_op(&tables);
    hub_answer::count(u64::from(most), told)
}
