// The small questions about a graph in valid tables: a hash's node and a node's hash, an actor's changes, counts. Nothing is changed but the lent buffer.
#![tactic(auto)]

ghost use Rattle.std.specs.Prelude.{◌≡◌, Bool, ◌&&◌, ℕ, ◌+◌, ◌*◌, ◌≤◌, ◌<◌, eqb, ltb, length, Err};
ghost use Rattle.paper.specs.Lists.{first_below, tally};
ghost use Rattle.paper.specs.Graph.{change_at, max_op_of};
ghost use Rattle.paper.specs.Adding.{seq_for_actor};
ghost use Rattle.tables.specs.Lent.{lists};
ghost use Rattle.tables.specs.Tables.{graph, actors, actor_at, seq_at, max_op_at};
ghost use Rattle.tables.specs.Valid.{Valid};
ghost use Rattle.tables.specs.Node.{found_as};
ghost use Rattle.answer_buffer.specs.Answers.{node_hash, node_hash_filled, list_answer, filled};
ghost use Rattle.answer_buffer.specs.declared.Refusal.TheVariants.{NotFound};
ghost use Rattle.lookups.specs.Lookups.{looked_up, has, largest, actor_listed, actor_list};

use answer_buffer::Refusal;
use tables::Tables;

// Which actors are listed: those with changes, those without, or all.
#[derive(Clone, Copy, PartialEq, Eq, Debug)]
pub enum Which {
    Used,
    Unused,
    All,
}

// The node that has the hash.
pub fn hash_to_index(tables: &Tables, hash: &[u8]) -> Result<usize, Refusal>
    requires { Valid (lists tables.now) }
    ensures { result ≡ looked_up (graph (lists tables.now)) hash.now }
{
    if hash.len() != 32 {
        return Err(Refusal::Malformed);
    }
    let n = tables.counts[0] as usize;
    hash::find(tables.hashes, n, hash).ok_or(Refusal::NotFound)
}

// Is the hash known?
pub fn has_change(tables: &Tables, hash: &[u8]) -> Result<bool, Refusal>
    requires { Valid (lists tables.now) }
    ensures { result ≡ has (graph (lists tables.now)) hash.now }
{
    if hash.len() != 32 {
        return Err(Refusal::Malformed);
    }
    let n = tables.counts[0] as usize;
    Ok(hash::find(tables.hashes, n, hash).is_some())
}

// The hash of node k.
pub fn index_to_hash(tables: &Tables, k: u64, out: &mut [u8]) -> Result<usize, Refusal>
    requires { Valid (lists tables.now) }
    ensures value { result ≡ node_hash (graph (lists tables.now)) k (Err NotFound) (length out.old) }
    ensures out_after { out.new ≡ node_hash_filled (graph (lists tables.now)) k out.old }
{
    if tables.counts[0] as u64 <= k {
        return Err(Refusal::NotFound);
    }
    answer_buffer::hash_into(tables.hashes, k as usize, out)
}

// Which of the first n nodes is the actor's change with the sequence.
pub fn change_at(nodes: &[u32], n: usize, actor: u64, seq: u64) -> Option<usize>
    requires { 6 * n ≤ length nodes.now }
    ensures { result ≡ found_as n (first_below (λ k. eqb (actor_at nodes.now k) actor && eqb (seq_at nodes.now k) seq) n) }
{
    for k in 0..n {
        if nodes[6 * k] as u64 == actor && nodes[6 * k + 1] as u64 == seq {
            return Some(k);
        }
    }
    None
}

// The hash of the actor's change with the sequence.
pub fn get_hash_for_actor_seq(
    tables: &Tables,
    actor: u64,
    seq: u64,
    out: &mut [u8],
) -> Result<usize, Refusal>
    requires { Valid (lists tables.now) }
    ensures value { result ≡ node_hash (graph (lists tables.now)) (change_at (graph (lists tables.now)) actor seq) (Err NotFound) (length out.old) }
    ensures out_after { out.new ≡ node_hash_filled (graph (lists tables.now)) (change_at (graph (lists tables.now)) actor seq) out.old }
{
    let n = tables.counts[0] as usize;
    let k = change_at(tables.nodes, n, actor, seq).ok_or(Refusal::NotFound)?;
    answer_buffer::hash_into(tables.hashes, k, out)
}

// The actor's last change.
pub fn last_change(tables: &Tables, actor: u64) -> Option<usize>
    requires { Valid (lists tables.now) }
    ensures { result ≡ found_as (graph (lists tables.now)).size (change_at (graph (lists tables.now)) actor (seq_for_actor (graph (lists tables.now)) actor)) }
{
    let n = tables.counts[0] as usize;
    for k in (0..n).rev() {
        if actor == tables.nodes[6 * k] as u64 {
            return Some(k);
        }
    }
    None
}

// How many changes the actor has, which is its last change's sequence.
pub fn seq_for_actor(tables: &Tables, actor: u64) -> u32
    requires { Valid (lists tables.now) }
    ensures { result ≡ seq_for_actor (graph (lists tables.now)) actor }
{
    let Some(k) = last_change(tables, actor) else {
        return 0;
    };
    tables.nodes[6 * k + 1]
}

// The max op of the actor's last change, or 0.
pub fn max_op_for_actor(tables: &Tables, actor: u64) -> u32
    requires { Valid (lists tables.now) }
    ensures { result ≡ max_op_of (graph (lists tables.now)) (change_at (graph (lists tables.now)) actor (seq_for_actor (graph (lists tables.now)) actor)) }
{
    let Some(k) = last_change(tables, actor) else {
        return 0;
    };
    tables.nodes[6 * k + 2]
}

// The largest max op of all changes, or 0.
pub fn max_op(tables: &Tables) -> u32
    requires { Valid (lists tables.now) }
    ensures { result ≡ largest (graph (lists tables.now)).max_op (graph (lists tables.now)).size }
{
    let n = tables.counts[0] as usize;
    let mut most: u32 = 0;
    for k in 0..n {
        most = most.max(tables.nodes[6 * k + 2]);
    }
    most
}

// How many changes there are.
pub fn len(tables: &Tables) -> usize
    requires { Valid (lists tables.now) }
    ensures { result ≡ (graph (lists tables.now)).size }
{
    tables.counts[0] as usize
}

// Are there none?
pub fn is_empty(tables: &Tables) -> bool
    requires { Valid (lists tables.now) }
    ensures { result ≡ eqb (graph (lists tables.now)).size 0 }
{
    tables.counts[0] == 0
}

// How many actors there are.
pub fn num_actors(tables: &Tables) -> usize
    requires { Valid (lists tables.now) }
    ensures { result ≡ actors (lists tables.now) }
{
    tables.counts[2] as usize
}

// Is the actor among those that are listed?
fn is_among(tables: &Tables, which: Which, a: usize) -> bool
    requires { Valid (lists tables.now) }
    ensures { result ≡ actor_listed (graph (lists tables.now)) which a }
{
    let used = 0 < seq_for_actor(tables, a as u64);
    match which {
        Which::Used => used,
        Which::Unused => !used,
        Which::All => true,
    }
}

// How many of the first m actors are listed.
fn count_among(tables: &Tables, which: Which, m: usize) -> usize
    requires { Valid (lists tables.now) }
    ensures { result ≡ tally (actor_listed (graph (lists tables.now)) which) m }
{
    let mut c: usize = 0;
    for a in 0..m {
        c += usize::from(is_among(tables, which, a));
    }
    c
}

// The actors with changes (`actor_ids`), without (`unused_actors`), or all (`all_actor_ids`), in ascending order.
pub fn actor_ids(tables: &Tables, which: Which, out: &mut [u32]) -> Result<usize, Refusal>
    requires { Valid (lists tables.now) }
    ensures value { result ≡ list_answer (actor_list (lists tables.now) which) (length out.old) }
    ensures out_after { out.new ≡ filled (actor_list (lists tables.now) which) out.old }
{
    let m = tables.counts[2] as usize;
    let count = count_among(tables, which, m);
    if out.len() < count {
        return Err(Refusal::Short);
    }
    let mut c = 0;
    for a in 0..m {
        if is_among(tables, which, a) {
            out[c] = a as u32;
            c += 1;
        }
    }
    Ok(c)
}
