// Cores under C names, for the benchmarks alone: what an operation costs without the check of what is lent. They have the cores' `requires`, so no host may
// call them with tables that it has not checked; they are not in libchangegraph.a.
#![tactic(auto)]

ghost use Rattle.std.specs.Prelude.{◌≡◌, Err, length};
ghost use Rattle.paper.specs.Graph.{owner};
ghost use Rattle.tables.specs.Tables.{tables, graph};
ghost use Rattle.tables.specs.Valid.{Valid};
ghost use Rattle.judge.specs.Judge.{change, tables_judged, judged_number};
ghost use Rattle.graph.specs.Place.{added_tables};
ghost use Rattle.answer_buffer.specs.Answers.{listed_number, list_answer, filled, node_hash, node_hash_filled};
ghost use Rattle.answer_buffer.specs.declared.Refusal.TheVariants.{NoOwner};
ghost use Rattle.heads.specs.Heads.{head_hashes};
ghost use Rattle.list_clock.specs.Clocks.{clock_told, clock_filled};
ghost use Rattle.missing.specs.Missing.{missing_told, missing_filled};

use judge::Change;
use tables::Tables;

// Adds a change.
#[unsafe(no_mangle)]
pub extern "C" fn bare_add(
    hashes: &mut [u8],
    nodes: &mut [u32],
    targets: &mut [u32],
    nexts: &mut [u32],
    clocks: &mut [u32],
    counts: &mut [u32],
    hash: &[u8],
    actor: u64,
    seq: u64,
    max: u64,
    ops: u64,
    deps: &[u8],
) -> u32
    requires { Valid (tables hashes.old nodes.old targets.old nexts.old clocks.old counts.old) }
    ensures value { result ≡ judged_number (tables_judged (tables hashes.old nodes.old targets.old nexts.old clocks.old counts.old) (change hash.now actor seq max ops deps.now)) }
    ensures counts_after { tables hashes.new nodes.new targets.new nexts.new clocks.new counts.new ≡ added_tables (tables hashes.old nodes.old targets.old nexts.old clocks.old counts.old) (change hash.now actor seq max ops deps.now) }
{
    let change = Change {
        hash,
        actor,
        seq,
        max_op: max,
        ops,
        deps,
    };
    judge::number(graph::add(hashes, nodes, targets, nexts, clocks, counts, &change))
}

// The clock of a list.
#[unsafe(no_mangle)]
pub extern "C" fn bare_clock(
    hashes: &[u8],
    nodes: &[u32],
    targets: &[u32],
    nexts: &[u32],
    clocks: &[u32],
    counts: &[u32],
    list: &[u8],
    out: &mut [u32],
) -> u32
    requires { Valid (tables hashes.now nodes.now targets.now nexts.now clocks.now counts.now) }
    ensures value { result ≡ listed_number (clock_told (tables hashes.now nodes.now targets.now nexts.now clocks.now counts.now) list.now (length out.old)) }
    ensures out_after { out.new ≡ clock_filled (tables hashes.now nodes.now targets.now nexts.now clocks.now counts.now) list.now out.old }
{
    let tables = Tables {
        hashes,
        nodes,
        targets,
        nexts,
        clocks,
        counts,
    };
    answer_buffer::number(&list_clock::seq_clock_for_heads(&tables, list, out))
}

// The missing list of a have-list.
#[unsafe(no_mangle)]
pub extern "C" fn bare_missing(
    hashes: &[u8],
    nodes: &[u32],
    targets: &[u32],
    nexts: &[u32],
    clocks: &[u32],
    counts: &[u32],
    have: &[u8],
    out: &mut [u8],
) -> u32
    requires { Valid (tables hashes.now nodes.now targets.now nexts.now clocks.now counts.now) }
    ensures value { result ≡ listed_number (missing_told (graph (tables hashes.now nodes.now targets.now nexts.now clocks.now counts.now)) have.now (length out.old)) }
    ensures out_after { out.new ≡ missing_filled (graph (tables hashes.now nodes.now targets.now nexts.now clocks.now counts.now)) have.now out.old }
{
    let tables = Tables {
        hashes,
        nodes,
        targets,
        nexts,
        clocks,
        counts,
    };
    answer_buffer::number(&missing::get_hashes(&tables, have, out))
}

// The owner of an op.
#[unsafe(no_mangle)]
pub extern "C" fn bare_owner(
    hashes: &[u8],
    nodes: &[u32],
    targets: &[u32],
    nexts: &[u32],
    clocks: &[u32],
    counts: &[u32],
    actor: u64,
    counter: u64,
    out: &mut [u8],
) -> u32
    requires { Valid (tables hashes.now nodes.now targets.now nexts.now clocks.now counts.now) }
    ensures value { result ≡ listed_number (node_hash (graph (tables hashes.now nodes.now targets.now nexts.now clocks.now counts.now)) (owner (graph (tables hashes.now nodes.now targets.now nexts.now clocks.now counts.now)) actor counter) (Err NoOwner) (length out.old)) }
    ensures out_after { out.new ≡ node_hash_filled (graph (tables hashes.now nodes.now targets.now nexts.now clocks.now counts.now)) (owner (graph (tables hashes.now nodes.now targets.now nexts.now clocks.now counts.now)) actor counter) out.old }
{
    let tables = Tables {
        hashes,
        nodes,
        targets,
        nexts,
        clocks,
        counts,
    };
    answer_buffer::number(&owner::opid_to_hash(&tables, actor, counter, out))
}

// The heads.
#[unsafe(no_mangle)]
pub extern "C" fn bare_heads(
    hashes: &[u8],
    nodes: &[u32],
    targets: &[u32],
    nexts: &[u32],
    clocks: &[u32],
    counts: &[u32],
    out: &mut [u8],
) -> u32
    requires { Valid (tables hashes.now nodes.now targets.now nexts.now clocks.now counts.now) }
    ensures value { result ≡ listed_number (list_answer (head_hashes (graph (tables hashes.now nodes.now targets.now nexts.now clocks.now counts.now))) (length out.old)) }
    ensures out_after { out.new ≡ filled (head_hashes (graph (tables hashes.now nodes.now targets.now nexts.now clocks.now counts.now))) out.old }
{
    let tables = Tables {
        hashes,
        nodes,
        targets,
        nexts,
        clocks,
        counts,
    };
    answer_buffer::number(&heads::heads(&tables, out))
}
