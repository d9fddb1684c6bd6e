// Waiting changes in lent tables, a queue or a batch of the same layout. hashes: 32 bytes a record. numbers: 5 a record, actor key, sequence,
// max op, op count, number of dependencies. deps: 1,024 bytes a record, 32 hashes, of which the first are used. count: one number.
// Here: when they are valid, opening empty ones, and why an operation on them is refused.
#![tactic(auto)]

ghost use Rattle.std.specs.Prelude.{◌≡◌, ◌↔◌, true, ℕ, ◌+◌, ◌*◌, ◌≤◌, ◌<◌, length, get_or, Ok, Err};
ghost use Rattle.waiting.specs.Refused.{queue_refusal_number, queue_number};
ghost use Rattle.waiting.specs.Valid.{StoreLaid, Sized, StoreValid, HeldOrNot, Apart, has_actor_seq_in, is_roomy, OpenedTo};
ghost use Rattle.records.specs.Records.{Few};

use ready::is_known;

// Why an operation on a queue or a batch is refused.
#[derive(Clone, Copy, PartialEq, Eq, Debug)]
pub enum QueueRefusal {
    NotValid,
    Malformed,
    AlreadyKnown,
    ManyDependencies,
    ShortBuffer,
    AlreadyWaiting,
    NoQueueRoom,
}

impl From<QueueRefusal> for u32 {
    ghost from_gives = { λ refusal n. n ≡ queue_refusal_number refusal };

    fn from(refusal: QueueRefusal) -> u32 {
        match refusal {
            QueueRefusal::NotValid => 1,
            QueueRefusal::Malformed => 2,
            QueueRefusal::AlreadyKnown => 3,
            QueueRefusal::ManyDependencies => 8,
            QueueRefusal::ShortBuffer => 15,
            QueueRefusal::AlreadyWaiting => 16,
            QueueRefusal::NoQueueRoom => 17,
        }
    }
}

// The number of an answer: 0, or its refusal's.
pub fn number_of<T: Copy>(answer: Result<T, QueueRefusal>) -> u32
    ensures { result ≡ queue_number answer }
{
    match answer {
        Ok(_) => 0,
        Err(refusal) => u32::from(refusal),
    }
}

// Do the lengths agree, and is the room at most 256?
fn laid(hashes: &[u8], numbers: &[u64], deps: &[u8], count: &[u32]) -> bool
    ensures { (result ≡ true) ↔ StoreLaid hashes.now numbers.now deps.now count.now }
{
    let room = hashes.len() / 32;
    count.len() == 1
        && room <= 256
        && hashes.len() == 32 * room
        && numbers.len() == 5 * room
        && deps.len() == 1024 * room
}

// Besides, is the count within the room?
fn sized(hashes: &[u8], numbers: &[u64], deps: &[u8], count: &[u32]) -> bool
    ensures { (result ≡ true) ↔ Sized hashes.now numbers.now deps.now count.now }
{
    laid(hashes, numbers, deps, count) && count[0] as usize <= hashes.len() / 32
}

// Has each of the first n records at most 32 dependencies?
fn few(numbers: &[u64], n: usize) -> bool
    requires { 5 * n ≤ length numbers.now }
    ensures { (result ≡ true) ↔ Few numbers.now n }
{
    (0..n).all(|i| numbers[5 * i + 4] <= 32)
}

// Has one of the first n records the actor and the sequence?
pub fn has_pair(numbers: &[u64], n: usize, key: u64, seq: u64) -> bool
    requires { 5 * n ≤ length numbers.now }
    ensures { result ≡ has_actor_seq_in numbers.now n key seq }
{
    (0..n).any(|i| numbers[5 * i] == key && numbers[5 * i + 1] == seq)
}

// Have the first n records distinct hashes, and distinct actors and sequences?
fn apart(hashes: &[u8], numbers: &[u64], n: usize) -> bool
    requires { (32 * n ≤ length hashes.now) × (5 * n ≤ length numbers.now) }
    ensures { (result ≡ true) ↔ Apart hashes.now numbers.now n }
{
    for i in 0..n {
        let p = 32 * i;
        if is_known(hashes, i, &hashes[p..p + 32]) {
            return false;
        }
        if has_pair(numbers, i, numbers[5 * i], numbers[5 * i + 1]) {
            return false;
        }
    }
    true
}

// Is what is lent a valid queue or batch?
pub fn valid(hashes: &[u8], numbers: &[u64], deps: &[u8], count: &[u32]) -> bool
    ensures { (result ≡ true) ↔ StoreValid hashes.now numbers.now deps.now count.now }
{
    if !sized(hashes, numbers, deps, count) {
        return false;
    }
    let n = count[0] as usize;
    few(numbers, n) && apart(hashes, numbers, n)
}

// Refuses what is no valid queue or batch.
pub fn check(hashes: &[u8], numbers: &[u64], deps: &[u8], count: &[u32]) -> Result<(), QueueRefusal>
    ensures { HeldOrNot (StoreValid hashes.now numbers.now deps.now count.now) (result ≡ Ok tt) (result ≡ Err QueueRefusal.NotValid) }
{
    if !valid(hashes, numbers, deps, count) {
        return Err(QueueRefusal::NotValid);
    }
    Ok(())
}

// Opens an empty queue or batch: 1 if the lengths disagree, or 0 and the count is 0. What the tables held has no meaning, and stays.
#[tactic(auto, unfolding(crate::specs::Valid::OpenedTo))]
pub fn open_empty(
    hashes: &[u8],
    numbers: &[u64],
    deps: &[u8],
    count: &mut [u32],
) -> Result<(), QueueRefusal>
    ensures held_or_not { HeldOrNot (StoreLaid hashes.now numbers.now deps.now count.old) (result ≡ Ok tt) (result ≡ Err QueueRefusal.NotValid) }
    ensures opened_to { OpenedTo result count.old count.new }
{
    if !laid(hashes, numbers, deps, count) {
        return Err(QueueRefusal::NotValid);
    }
    count[0] = 0;
    Ok(())
}

// Have tables of these lengths room for r records?
#[tactic(auto, unfolding(crate::specs::Valid::is_roomy))]
pub fn roomy(hashes: usize, numbers: usize, deps: usize, r: usize) -> bool
    requires { r ≤ 256 }
    ensures { result ≡ is_roomy hashes numbers deps r }
{
    32 * r <= hashes && 5 * r <= numbers && 1024 * r <= deps
}
