// What is asked of a graph, from C: nothing changes but the answer's buffer and the lent place.
ghost use Rattle.edges.specs.Edges.{lent};
ghost use Rattle.hub_list_clock.specs.Operations.{ClockOf};
ghost use Rattle.hub_op_clock.specs.Operations.{ClockAt};
ghost use Rattle.hub_missing.specs.Operations.{MissingFrom};
ghost use Rattle.hub_owner.specs.Operations.{OwnerOf};
ghost use Rattle.hub_heads.specs.Operations.{HeadsOf, HeadIndexes};
ghost use Rattle.hub_current_heads.specs.Operations.{HeadsAreCurrent};
ghost use Rattle.hub_lookups.specs.Operations.{HashToIndex, HasChange};
ghost use Rattle.hub_hashes.specs.Operations.{IndexToHash, HashForActorSeq};
ghost use Rattle.hub_counts.specs.Operations.{SeqForActor, MaxOpForActor, MaxOp};
ghost use Rattle.hub_sizes.specs.Operations.{Len, NumActors, ActorIds};
ghost use Rattle.hub_deps.specs.Operations.{DepsForHash};
ghost use Rattle.hub_ancestors.specs.Operations.{RemoveAncestors};
ghost use Rattle.hub_chained.specs.Operations.{IsChained};

use edges::Edge;

#[unsafe(no_mangle)]
pub extern "C" fn cg_clock_of(
    hashes: &[u8],
    nodes: &[u32],
    edges: &[Edge],
    clocks: &[u32],
    counts: &[u32],
    list: &[u8],
    out: &mut [u32],
    told: &mut [u64],
) -> u32
    ensures { ClockOf list.now out.old told.old result out.new told.new (lent hashes.now nodes.now edges.now clocks.now counts.now) }
{
    hub_list_clock::cg_clock_of(hashes, nodes, edges, clocks, counts, list, out, told)
}

#[unsafe(no_mangle)]
pub extern "C" fn cg_clock_at(
    hashes: &[u8],
    nodes: &[u32],
    edges: &[Edge],
    clocks: &[u32],
    counts: &[u32],
    list: &[u8],
    out: &mut [u32],
    told: &mut [u64],
) -> u32
    ensures { ClockAt list.now out.old told.old result out.new told.new (lent hashes.now nodes.now edges.now clocks.now counts.now) }
{
    hub_op_clock::cg_clock_at(hashes, nodes, edges, clocks, counts, list, out, told)
}

#[unsafe(no_mangle)]
pub extern "C" fn cg_missing(
    hashes: &[u8],
    nodes: &[u32],
    edges: &[Edge],
    clocks: &[u32],
    counts: &[u32],
    have: &[u8],
    out: &mut [u8],
    told: &mut [u64],
) -> u32
    ensures { MissingFrom have.now out.old told.old result out.new told.new (lent hashes.now nodes.now edges.now clocks.now counts.now) }
{
    hub_missing::cg_missing(hashes, nodes, edges, clocks, counts, have, out, told)
}

#[unsafe(no_mangle)]
pub extern "C" fn cg_owner(
    hashes: &[u8],
    nodes: &[u32],
    edges: &[Edge],
    clocks: &[u32],
    counts: &[u32],
    actor: u64,
    counter: u64,
    out: &mut [u8],
    told: &mut [u64],
) -> u32
    ensures { OwnerOf actor counter out.old told.old result out.new told.new (lent hashes.now nodes.now edges.now clocks.now counts.now) }
{
    hub_owner::cg_owner(
        hashes, nodes, edges, clocks, counts, actor, counter, out, told,
    )
}

#[unsafe(no_mangle)]
pub extern "C" fn cg_heads(
    hashes: &[u8],
    nodes: &[u32],
    edges: &[Edge],
    clocks: &[u32],
    counts: &[u32],
    out: &mut [u8],
    told: &mut [u64],
) -> u32
    ensures { HeadsOf out.old told.old result out.new told.new (lent hashes.now nodes.now edges.now clocks.now counts.now) }
{
    hub_heads::cg_heads(hashes, nodes, edges, clocks, counts, out, told)
}

#[unsafe(no_mangle)]
pub extern "C" fn cg_head_indexes(
    hashes: &[u8],
    nodes: &[u32],
    edges: &[Edge],
    clocks: &[u32],
    counts: &[u32],
    out: &mut [u32],
    told: &mut [u64],
) -> u32
    ensures { HeadIndexes out.old told.old result out.new told.new (lent hashes.now nodes.now edges.now clocks.now counts.now) }
{
    hub_heads::cg_head_indexes(hashes, nodes, edges, clocks, counts, out, told)
}

#[unsafe(no_mangle)]
pub extern "C" fn cg_heads_are_current(
    hashes: &[u8],
    nodes: &[u32],
    edges: &[Edge],
    clocks: &[u32],
    counts: &[u32],
    list: &[u8],
    told: &mut [u64],
) -> u32
    ensures { HeadsAreCurrent list.now told.old result told.new (lent hashes.now nodes.now edges.now clocks.now counts.now) }
{
    hub_current_heads::cg_heads_are_current(hashes, nodes, edges, clocks, counts, list, told)
}

#[unsafe(no_mangle)]
pub extern "C" fn cg_hash_to_index(
    hashes: &[u8],
    nodes: &[u32],
    edges: &[Edge],
    clocks: &[u32],
    counts: &[u32],
    hash: &[u8],
    told: &mut [u64],
) -> u32
    ensures { HashToIndex hash.now told.old result told.new (lent hashes.now nodes.now edges.now clocks.now counts.now) }
{
    hub_lookups::cg_hash_to_index(hashes, nodes, edges, clocks, counts, hash, told)
}

#[unsafe(no_mangle)]
pub extern "C" fn cg_has_change(
    hashes: &[u8],
    nodes: &[u32],
    edges: &[Edge],
    clocks: &[u32],
    counts: &[u32],
    hash: &[u8],
    told: &mut [u64],
) -> u32
    ensures { HasChange hash.now told.old result told.new (lent hashes.now nodes.now edges.now clocks.now counts.now) }
{
    hub_lookups::cg_has_change(hashes, nodes, edges, clocks, counts, hash, told)
}

#[unsafe(no_mangle)]
pub extern "C" fn cg_index_to_hash(
    hashes: &[u8],
    nodes: &[u32],
    edges: &[Edge],
    clocks: &[u32],
    counts: &[u32],
    index: u64,
    out: &mut [u8],
    told: &mut [u64],
) -> u32
    ensures { IndexToHash index out.old told.old result out.new told.new (lent hashes.now nodes.now edges.now clocks.now counts.now) }
{
    hub_hashes::cg_index_to_hash(hashes, nodes, edges, clocks, counts, index, out, told)
}

#[unsafe(no_mangle)]
pub extern "C" fn cg_get_hash_for_actor_seq(
    hashes: &[u8],
    nodes: &[u32],
    edges: &[Edge],
    clocks: &[u32],
    counts: &[u32],
    actor: u64,
    seq: u64,
    out: &mut [u8],
    told: &mut [u64],
) -> u32
    ensures { HashForActorSeq actor seq out.old told.old result out.new told.new (lent hashes.now nodes.now edges.now clocks.now counts.now) }
{
    hub_hashes::cg_get_hash_for_actor_seq(
        hashes, nodes, edges, clocks, counts, actor, seq, out, told,
    )
}

#[unsafe(no_mangle)]
pub extern "C" fn cg_seq_for_actor(
    hashes: &[u8],
    nodes: &[u32],
    edges: &[Edge],
    clocks: &[u32],
    counts: &[u32],
    actor: u64,
    told: &mut [u64],
) -> u32
    ensures { SeqForActor actor told.old result told.new (lent hashes.now nodes.now edges.now clocks.now counts.now) }
{
    hub_counts::cg_seq_for_actor(hashes, nodes, edges, clocks, counts, actor, told)
}

#[unsafe(no_mangle)]
pub extern "C" fn cg_max_op_for_actor(
    hashes: &[u8],
    nodes: &[u32],
    edges: &[Edge],
    clocks: &[u32],
    counts: &[u32],
    actor: u64,
    told: &mut [u64],
) -> u32
    ensures { MaxOpForActor actor told.old result told.new (lent hashes.now nodes.now edges.now clocks.now counts.now) }
{
    hub_counts::cg_max_op_for_actor(hashes, nodes, edges, clocks, counts, actor, told)
}

#[unsafe(no_mangle)]
pub extern "C" fn cg_max_op(
    hashes: &[u8],
    nodes: &[u32],
    edges: &[Edge],
    clocks: &[u32],
    counts: &[u32],
    told: &mut [u64],
) -> u32
    ensures { MaxOp told.old result told.new (lent hashes.now nodes.now edges.now clocks.now counts.now) }
{
    hub_counts::cg_max_op(hashes, nodes, edges, clocks, counts, told)
}

#[unsafe(no_mangle)]
pub extern "C" fn cg_len(
    hashes: &[u8],
    nodes: &[u32],
    edges: &[Edge],
    clocks: &[u32],
    counts: &[u32],
    told: &mut [u64],
) -> u32
    ensures { Len told.old result told.new (lent hashes.now nodes.now edges.now clocks.now counts.now) }
{
    hub_sizes::cg_len(hashes, nodes, edges, clocks, counts, told)
}

#[unsafe(no_mangle)]
pub extern "C" fn cg_num_actors(
    hashes: &[u8],
    nodes: &[u32],
    edges: &[Edge],
    clocks: &[u32],
    counts: &[u32],
    told: &mut [u64],
) -> u32
    ensures { NumActors told.old result told.new (lent hashes.now nodes.now edges.now clocks.now counts.now) }
{
    hub_sizes::cg_num_actors(hashes, nodes, edges, clocks, counts, told)
}

#[unsafe(no_mangle)]
pub extern "C" fn cg_actor_ids(
    hashes: &[u8],
    nodes: &[u32],
    edges: &[Edge],
    clocks: &[u32],
    counts: &[u32],
    which: u64,
    out: &mut [u32],
    told: &mut [u64],
) -> u32
    ensures { ActorIds which out.old told.old result out.new told.new (lent hashes.now nodes.now edges.now clocks.now counts.now) }
{
    hub_sizes::cg_actor_ids(hashes, nodes, edges, clocks, counts, which, out, told)
}

#[unsafe(no_mangle)]
pub extern "C" fn cg_deps_for_hash(
    hashes: &[u8],
    nodes: &[u32],
    edges: &[Edge],
    clocks: &[u32],
    counts: &[u32],
    hash: &[u8],
    out: &mut [u8],
    told: &mut [u64],
) -> u32
    ensures { DepsForHash hash.now out.old told.old result out.new told.new (lent hashes.now nodes.now edges.now clocks.now counts.now) }
{
    hub_deps::cg_deps_for_hash(hashes, nodes, edges, clocks, counts, hash, out, told)
}

#[unsafe(no_mangle)]
pub extern "C" fn cg_remove_ancestors(
    hashes: &[u8],
    nodes: &[u32],
    edges: &[Edge],
    clocks: &[u32],
    counts: &[u32],
    list: &[u8],
    heads: &[u8],
    out: &mut [u8],
    told: &mut [u64],
) -> u32
    ensures { RemoveAncestors list.now heads.now out.old told.old result out.new told.new (lent hashes.now nodes.now edges.now clocks.now counts.now) }
{
    hub_ancestors::cg_remove_ancestors(hashes, nodes, edges, clocks, counts, list, heads, out, told)
}

#[unsafe(no_mangle)]
pub extern "C" fn cg_chained(
    hashes: &[u8],
    nodes: &[u32],
    edges: &[Edge],
    clocks: &[u32],
    counts: &[u32],
    told: &mut [u64],
) -> u32
    ensures { IsChained told.old result told.new (lent hashes.now nodes.now edges.now clocks.now counts.now) }
{
    hub_chained::cg_chained(hashes, nodes, edges, clocks, counts, told)
}
