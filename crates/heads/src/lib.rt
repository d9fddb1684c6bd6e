// The heads of a graph in valid tables: their hashes in ascending order, and their nodes in that order. Nothing is changed but the lent buffer.
#![tactic(auto)]

ghost use Rattle.std.specs.Prelude.{◌≡◌, Bool, map, ℕ, ◌+◌, ◌*◌, ◌≤◌, ◌<◌, eqb, length};
ghost use Rattle.paper.specs.Lists.{tally, hashes_from};
ghost use Rattle.paper.specs.Text.{flat};
ghost use Rattle.tables.specs.Lent.{lists};
ghost use Rattle.tables.specs.Tables.{graph, head_at};
ghost use Rattle.tables.specs.Valid.{Valid};
ghost use Rattle.answer_buffer.specs.Answers.{list_answer, filled};
ghost use Rattle.answer_buffer.specs.AnswerLaws.{Holds};
ghost use Rattle.heads.specs.Heads.{head_hashes, head_places, node_in, Askable};

use answer_buffer::Refusal;
use tables::Tables;

// How many of the first n nodes are heads.
fn count_heads(nodes: &[u32], n: usize) -> usize
    requires { 6 * n ≤ length nodes.now }
    ensures { result ≡ tally (λ k. eqb (head_at nodes.now k) 1) n }
{
    let mut c: usize = 0;
    for k in 0..n {
        c += usize::from(nodes[6 * k + 5] == 1);
    }
    c
}

// The heads' hashes, ascending.
pub fn heads(tables: &Tables, out: &mut [u8]) -> Result<usize, Refusal>
    requires { Valid (lists tables.now) }
    ensures value { result ≡ list_answer (head_hashes (graph (lists tables.now))) (length out.old) }
    ensures out_after { out.new ≡ filled (head_hashes (graph (lists tables.now))) out.old }
{
    let n = tables.counts[0] as usize;
    let count = count_heads(tables.nodes, n);
    if out.len() / 32 < count {
        return Err(Refusal::Short);
    }
    let mut c: usize = 0;
    for k in (0..n).rev() {
        if tables.nodes[6 * k + 5] == 1 {
            c = answer_buffer::enter_hash(out, c, tables.hashes, k);
        }
    }
    Ok(32 * c)
}

// Which of the first n hashes the hash is, or n where it is none of them.
fn node_number(hashes: &[u8], n: usize, hash: &[u8]) -> u32
    requires { (32 * n ≤ length hashes.now) × (n ≤ 4096) × (length hash.now ≡ 32) }
    ensures { result ≡ node_in hashes.now n hash.now }
{
    hash::find(hashes, n, hash).unwrap_or(n) as u32
}

// The same for each of the first c hashes of a list, into `out`.
fn nodes_into(hashes: &[u8], n: usize, list: &[u8], c: usize, out: &mut [u32])
    requires { Askable hashes.now n list.now c (length out.old) }
    ensures { Holds (map (node_in hashes.now n) (hashes_from list.now c 0)) out.old out.new c }
{
    for i in 0..c {
        let p = 32 * i;
        out[i] = node_number(hashes, n, &list[p..p + 32]);
    }
}

// The heads' nodes, in the order of their hashes.
pub fn head_indexes(tables: &Tables, out: &mut [u32]) -> Result<usize, Refusal>
    requires { Valid (lists tables.now) }
    ensures value { result ≡ list_answer (head_places (graph (lists tables.now))) (length out.old) }
    ensures out_after { out.new ≡ filled (head_places (graph (lists tables.now))) out.old }
{
    let n = tables.counts[0] as usize;
    let count = count_heads(tables.nodes, n);
    if out.len() < count {
        return Err(Refusal::Short);
    }
    let mut list = [0u8; 131072];
    heads(tables, &mut list)?;
    nodes_into(tables.hashes, n, &list, count, out);
    Ok(count)
}
