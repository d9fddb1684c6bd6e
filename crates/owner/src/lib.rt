// The owner of an op: the actor's change of lowest sequence whose op range holds the counter. Nothing is changed but the lent buffer.
#![tactic(auto)]

ghost use Rattle.std.specs.Prelude.{◌≡◌, Bool, ℕ, ◌+◌, ◌*◌, ◌≤◌, ◌<◌, length, Err};
ghost use Rattle.paper.specs.Lists.{first_below};
ghost use Rattle.paper.specs.Graph.{owner};
ghost use Rattle.tables.specs.Lent.{lists};
ghost use Rattle.tables.specs.Tables.{graph};
ghost use Rattle.tables.specs.Valid.{Valid};
ghost use Rattle.tables.specs.Node.{found_as};
ghost use Rattle.answer_buffer.specs.Answers.{node_hash, node_hash_filled};
ghost use Rattle.answer_buffer.specs.declared.Refusal.TheVariants.{NoOwner};
ghost use Rattle.owner.specs.Owns.{owns_at};

use answer_buffer::Refusal;
use tables::Tables;

// Is node k a change of the actor whose op range holds the counter?
fn owns(nodes: &[u32], k: usize, actor: u64, counter: u64) -> bool
    requires { 6 * k + 6 ≤ length nodes.now }
    ensures { result ≡ owns_at nodes.now actor counter k }
{
    if nodes[6 * k] as u64 != actor {
        return false;
    }
    let max = nodes[6 * k + 2] as u64;
    let ops = nodes[6 * k + 3] as u64;
    counter <= max && max < counter + ops
}

// Which of the first n nodes owns the op.
pub fn owner_at(nodes: &[u32], n: usize, actor: u64, counter: u64) -> Option<usize>
    requires { 6 * n ≤ length nodes.now }
    ensures { result ≡ found_as n (first_below (owns_at nodes.now actor counter) n) }
{
    for k in 0..n {
        if owns(nodes, k, actor, counter) {
            return Some(k);
        }
    }
    None
}

// The hash of the change that owns the op.
pub fn opid_to_hash(
    tables: &Tables,
    actor: u64,
    counter: u64,
    out: &mut [u8],
) -> Result<usize, Refusal>
    requires { Valid (lists tables.now) }
    ensures value { result ≡ node_hash (graph (lists tables.now)) (owner (graph (lists tables.now)) actor counter) (Err NoOwner) (length out.old) }
    ensures out_after { out.new ≡ node_hash_filled (graph (lists tables.now)) (owner (graph (lists tables.now)) actor counter) out.old }
{
    let n = tables.counts[0] as usize;
    let k = owner_at(tables.nodes, n, actor, counter).ok_or(Refusal::NoOwner)?;
    answer_buffer::hash_into(tables.hashes, k, out)
}
