// The answers of questions with the paper's numbers, and hashes written into a lent buffer: one, or one after the other in ascending order.
#![tactic(auto)]

ghost use Rattle.std.specs.Prelude.{◌≡◌, ◌++◌, ◌+◌, ◌*◌, ◌≤◌, ◌<◌, length, drop};
ghost use Rattle.paper.specs.Lists.{hash_at, hashes_from, enter};
ghost use Rattle.paper.specs.Text.{flat};
ghost use Rattle.list_laws.specs.Over.{over};
ghost use Rattle.answer_buffer.specs.Answers.{answer_number, refusal_number, list_answer, filled};
ghost use Rattle.answer_buffer.specs.Slots.{order_of, slot, shifted};

use std::cmp::Ordering;

// Why a question has no answer.
#[derive(Clone, Copy, PartialEq, Eq, Debug)]
pub enum Refusal {
    Malformed,
    NotFound,
    NoOwner,
    Short,
}

impl Refusal {
    // The paper's number.
    pub fn number(self) -> u32
        ensures { result ≡ refusal_number self }
    {
        match self {
            Refusal::Malformed => 2,
            Refusal::NotFound => 13,
            Refusal::NoOwner => 14,
            Refusal::Short => 15,
        }
    }
}

// The paper's number of an answer: a node's number, yes or no, or how many elements of the lent buffer it takes.
pub fn number<T>(answer: &Result<T, Refusal>) -> u32
    ensures { result ≡ answer_number answer.now }
{
    match answer {
        Ok(_) => 0,
        Err(refusal) => refusal.number(),
    }
}

// Writes hash k of the table at byte `at`.
pub fn put_hash(out: &mut [u8], at: usize, hashes: &[u8], k: usize)
    requires { (at + 32 ≤ length out.old) × (32 * k + 32 ≤ length hashes.now) }
    ensures { out.new ≡ over out.old at (hash_at hashes.now k) }
{
    let base = 32 * k;
    out[at..at + 32].copy_from_slice(&hashes[base..base + 32]);
}

// Hash k of the table as an answer. Where the buffer is too short nothing is written.
pub fn hash_into(hashes: &[u8], k: usize, out: &mut [u8]) -> Result<usize, Refusal>
    requires { 32 * k + 32 ≤ length hashes.now }
    ensures value { result ≡ list_answer (hash_at hashes.now k) (length out.old) }
    ensures out_after { out.new ≡ filled (hash_at hashes.now k) out.old }
{
    if out.len() < 32 {
        return Err(Refusal::Short);
    }
    put_hash(out, 0, hashes, k);
    Ok(32)
}

// How hash k of the one table stands to hash i of the other.
fn compare(hashes: &[u8], k: usize, out: &[u8], i: usize) -> Ordering
    requires { (32 * k + 32 ≤ length hashes.now) × (32 * i + 32 ≤ length out.now) }
    ensures { result ≡ order_of (hash_at hashes.now k) (hash_at out.now i) }
{
    let p = 32 * k;
    let q = 32 * i;
    // Most hashes part at their first byte: that is cheaper to look at than two slices.
    if hashes[p] != out[q] {
        return hashes[p].cmp(&out[q]);
    }
    hashes[p..p + 32].cmp(&out[q..q + 32])
}

// Where hash k of the table goes among the first c hashes of `out`, which ascend, unless it stands there.
fn find_slot(out: &[u8], c: usize, hashes: &[u8], k: usize) -> Option<usize>
    requires { (32 * k + 32 ≤ length hashes.now) × (32 * c ≤ length out.now) }
    ensures { result ≡ slot (hash_at hashes.now k) (hashes_from out.now c 0) 0 }
{
    for i in 0..c {
        match compare(hashes, k, out, i) {
            Ordering::Less => return Some(i),
            Ordering::Equal => return None,
            Ordering::Greater => {}
        }
    }
    Some(c)
}

// Moves the bytes from `from` to `to` up by the 32 of a hash.
fn make_room(out: &mut [u8], from: usize, to: usize)
    requires { (from ≤ to) × (to + 32 ≤ length out.old) }
    ensures { out.new ≡ shifted out.old from to }
{
    out.copy_within(from..to, from + 32);
}

// Enters hash k of the table into the first c hashes of `out`, which ascend. Answers how many there are then.
pub fn enter_hash(out: &mut [u8], c: usize, hashes: &[u8], k: usize) -> usize
    requires { (32 * k + 32 ≤ length hashes.now) × (32 * length (enter (hash_at hashes.now k) (hashes_from out.old c 0)) ≤ length out.old) }
    ensures value { result ≡ length (enter (hash_at hashes.now k) (hashes_from out.old c 0)) }
    ensures out_after { out.new ≡ flat (enter (hash_at hashes.now k) (hashes_from out.old c 0)) ++ drop (32 * length (enter (hash_at hashes.now k) (hashes_from out.old c 0))) out.old }
{
    let Some(i) = find_slot(out, c, hashes, k) else {
        return c;
    };
    make_room(out, 32 * i, 32 * c);
    put_hash(out, 32 * i, hashes, k);
    c + 1
}
