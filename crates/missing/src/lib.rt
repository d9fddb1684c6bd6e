// What is missing to who has the listed hashes: every node whose sequence is above its actor's entry in the list's clock. Nothing is changed but the lent buffer.
#![tactic(auto)]

ghost use Rattle.std.specs.Prelude.{◌≡◌, Bool, map, ℕ, ◌+◌, ◌*◌, ◌≤◌, ◌<◌, length};
ghost use Rattle.paper.specs.Lists.{pick, tally, hash_at};
ghost use Rattle.paper.specs.Text.{flat};
ghost use Rattle.tables.specs.Lent.{lists};
ghost use Rattle.tables.specs.Tables.{graph};
ghost use Rattle.tables.specs.Valid.{Valid};
ghost use Rattle.answer_buffer.specs.Answers.{list_answer, filled};
ghost use Rattle.missing.specs.Missing.{above_at, Within, missing_told, missing_filled, Shown, shown};

use answer_buffer::Refusal;
use tables::Tables;

// Is node k's sequence above its actor's entry?
fn is_above(nodes: &[u32], n: usize, clock: &[u32], k: usize) -> bool
    requires { Within nodes.now n clock.now × (k < n) }
    ensures { result ≡ above_at nodes.now clock.now k }
{
    let actor = nodes[6 * k] as usize;
    let entry = clock[actor];
    entry < nodes[6 * k + 1]
}

// How many of the first n nodes are above.
fn count_above(nodes: &[u32], n: usize, clock: &[u32]) -> usize
    requires { Within nodes.now n clock.now }
    ensures { result ≡ tally (above_at nodes.now clock.now) n }
{
    let mut c: usize = 0;
    for k in 0..n {
        c += usize::from(is_above(nodes, n, clock, k));
    }
    c
}

// The hashes of those that are above, in node order.
fn above_into(
    hashes: &[u8],
    nodes: &[u32],
    n: usize,
    clock: &[u32],
    out: &mut [u8],
) -> Result<usize, Refusal>
    requires { Within nodes.now n clock.now × (32 * n ≤ length hashes.now) }
    ensures value { result ≡ list_answer (flat (map (hash_at hashes.now) (pick (above_at nodes.now clock.now) n))) (length out.old) }
    ensures out_after { out.new ≡ filled (flat (map (hash_at hashes.now) (pick (above_at nodes.now clock.now) n))) out.old }
{
    let count = count_above(nodes, n, clock);
    if out.len() / 32 < count {
        return Err(Refusal::Short);
    }
    let mut c: usize = 0;
    for k in 0..n {
        if is_above(nodes, n, clock, k) {
            answer_buffer::put_hash(out, c, hashes, k);
            c += 32;
        }
    }
    Ok(c)
}

// The missing list for a have-list. Where the have-list is empty it is the table itself: nothing is written, and 15 is not given.
pub fn get_hashes(tables: &Tables, have: &[u8], out: &mut [u8]) -> Result<usize, Refusal>
    requires { Valid (lists tables.now) }
    ensures value { result ≡ missing_told (graph (lists tables.now)) have.now (length out.old) }
    ensures out_after { out.new ≡ missing_filled (graph (lists tables.now)) have.now out.old }
{
    if have.len() % 32 != 0 {
        return Err(Refusal::Malformed);
    }
    let n = tables.counts[0] as usize;
    if have.is_empty() {
        return Ok(32 * n);
    }
    let mut clock = [0u32; 64];
    list_clock::list_clock(tables, have, &mut clock);
    above_into(tables.hashes, tables.nodes, n, &clock, out)
}

// The missing list as it is shown: a part of the table itself exactly where the have-list is empty, else of the answer buffer. `len` is what `get_hashes` answered.
pub fn missing_shown<'a>(hashes: &'a [u8], answer: &'a [u8], have: &[u8], len: usize) -> &'a [u8]
    requires { Shown hashes.now answer.now have.now len }
    ensures { result.now ≡ shown hashes.now answer.now have.now len }
{
    if have.is_empty() {
        &hashes[..len]
    } else {
        &answer[..len]
    }
}
