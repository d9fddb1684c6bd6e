// How many changes and actors there are, and which actors, through the C face, over edge records. Each question checks what it is lent: it has no `requires`.
// The records are unpacked and the tables checked, then the core is asked. Nothing changes but the buffer and the place.
#![tactic(auto)]

ghost use Rattle.std.specs.Prelude.{◌≡◌};
ghost use Rattle.edges.specs.Edges.{lent};
ghost use Rattle.hub_sizes.specs.Operations.{which_of, Len, NumActors, ActorIds};

use edges::Edge;
use lookups::Which;

// How many changes there are. Answers 0, or 1 where the tables are not valid.
#[unsafe(no_mangle)]
pub extern "C" fn cg_len(
    hashes: &[u8],
    nodes: &[u32],
    edges: &[Edge],
    clocks: &[u32],
    counts: &[u32],
    told: &mut [u64],
) -> u32
    ensures { Len told.old result told.new (lent hashes.now nodes.now edges.now clocks.now counts.now) }
{
    let mut targets = [0u32; 16384];
    let mut nexts = [0u32; 16384];
    edges::unpack(edges, &mut targets, &mut nexts);
    let Some(tables) = hub_answer::valid_tables(
        hashes, nodes, edges, &targets, &nexts, clocks, counts,
    ) else {
        return 1;
    };
    let changes = lookups::len(&tables);
    hub_answer::count(changes as u64, told)
}

// How many actors there are. Answers 0, or 1 where the tables are not valid.
#[unsafe(no_mangle)]
pub extern "C" fn cg_num_actors(
    hashes: &[u8],
    nodes: &[u32],
    edges: &[Edge],
    clocks: &[u32],
    counts: &[u32],
    told: &mut [u64],
) -> u32
    ensures { NumActors told.old result told.new (lent hashes.now nodes.now edges.now clocks.now counts.now) }
{
    let mut targets = [0u32; 16384];
    let mut nexts = [0u32; 16384];
    edges::unpack(edges, &mut targets, &mut nexts);
    let Some(tables) = hub_answer::valid_tables(
        hashes, nodes, edges, &targets, &nexts, clocks, counts,
    ) else {
        return 1;
    };
    let actors = lookups::num_actors(&tables);
    hub_answer::count(actors as u64, told)
}

// Which actors are listed, by a number.
fn which_of(n: u64) -> Which
    ensures { result ≡ which_of n }
{
    match n {
        0 => Which::Used,
        1 => Which::Unused,
        _ => Which::All,
    }
}

// The actors with changes (which is 0), without (1) or all (2 and above), ascending, and how many they are. Answers 0; 1 where the tables are not valid; 15 where they are more than the buffer has entries.
#[unsafe(no_mangle)]
pub extern "C" fn cg_actor_ids(
    hashes: &[u8],
    nodes: &[u32],
    edges: &[Edge],
    clocks: &[u32],
    counts: &[u32],
    which: u64,
    out: &mut [u32],
    told: &mut [u64],
) -> u32
    ensures { ActorIds which out.old told.old result out.new told.new (lent hashes.now nodes.now edges.now clocks.now counts.now) }
{
    let mut targets = [0u32; 16384];
    let mut nexts = [0u32; 16384];
    edges::unpack(edges, &mut targets, &mut nexts);
    let Some(tables) = hub_answer::valid_tables(
        hashes, nodes, edges, &targets, &nexts, clocks, counts,
    ) else {
        return 1;
    };
    let ids = lookups::actor_ids(&tables, which_of(which), out);
    hub_answer::listed(ids, told)
}
