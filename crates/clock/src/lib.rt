// Clocks where they lie: an entry for each actor, 0 for nothing. Sequence clocks and op clocks are the same lists.
// The functions are named as in the Rust. They work on a slice that is the clock, and ask for a place that it has.
#![tactic(auto)]

ghost use Rattle.std.specs.Prelude.{◌≡◌, Bool, ◌+◌, ◌<◌, ◌≤◌, length, get_or, set};
ghost use Rattle.clock.specs.Clock.{takes, included, joined, covers_all, isolated, op_covers, inserted, removed};
ghost use Rattle.clock.specs.Range.{which_after, InAfter, InBefore, visible_after, visible_before};

// The kind of a range, beside its two clocks `before` and `after`: the current state with no clock, the current state at the clock `after`, and
// what lies between the two.
#[derive(Clone, Copy, PartialEq, Eq, Debug)]
pub enum Range {
    Current,
    CurrentAt,
    Diff,
}

// One of a range's two clocks, or none.
#[derive(Clone, Copy, PartialEq, Eq, Debug)]
pub enum Which {
    Before,
    After,
    Neither,
}

// ---- on the slice that is the clock

// The entry of actor a, 0 for an actor that the clock does not have.
pub fn get(clock: &[u32], a: usize) -> u32
    ensures { result ≡ get_or clock.now a 0 }
{
    clock.get(a).copied().unwrap_or(0)
}

// Enters a sequence of actor a where nothing stands or a smaller one; says whether.
pub fn include(clock: &mut [u32], a: usize, sequence: Option<u32>) -> bool
    requires { a < length clock.old }
    ensures { (result ≡ takes (get_or clock.old a 0) sequence) × (clock.new ≡ included clock.old a sequence) }
{
    match sequence {
        Some(x) if clock[a] == 0 || clock[a] < x => {
            clock[a] = x;
            true
        }
        _ => false,
    }
}

// The larger entry of the two clocks, at each place that both have.
pub fn merge(a: &mut [u32], b: &[u32])
    ensures { a.new ≡ joined a.old b.now }
{
    for i in 0..a.len().min(b.len()) {
        a[i] = a[i].max(b[i]);
    }
}

// No entry of b is larger than a's.
pub fn covers(a: &[u32], b: &[u32]) -> bool
    requires { length a.now ≡ length b.now }
    ensures { result ≡ covers_all a.now b.now }
{
    a.iter().zip(b).all(|(x, y)| *y <= *x)
}

// The actor's entry becomes the largest number.
pub fn isolate(clock: &mut [u32], a: usize)
    requires { a < length clock.old }
    ensures { clock.new ≡ isolated clock.old a }
{
    clock[a] = u32::MAX;
}

// An op clock covers an op whose counter is not above its actor's entry.
pub fn op_covers(clock: &[u32], a: usize, counter: u64) -> bool
    requires { a < length clock.now }
    ensures { result ≡ op_covers clock.now a counter }
{
    counter <= u64::from(clock[a])
}

// A new actor at place p of a clock whose first n entries are in use: it has nothing, and the entries from p on go one place up, over what stood at n.
pub fn rewrite_with_new_actor(clock: &mut [u32], n: usize, p: usize)
    requires { (p ≤ n) × (n < length clock.old) }
    ensures { clock.new ≡ inserted clock.old n p }
{
    clock.copy_within(p..n, p + 1);
    clock[p] = 0;
}

// The actor at place p goes: the entries in use past p go one place down, and the place that falls free holds nothing.
pub fn remove_actor(clock: &mut [u32], n: usize, p: usize)
    requires { (p < n) × (n ≤ length clock.old) }
    ensures { clock.new ≡ removed clock.old n p }
{
    clock.copy_within(p + 1..n, p);
    clock[n - 1] = 0;
}

// ---- the range: a kind beside two clocks

// The clock that the range ends at.
pub fn after(kind: Range) -> Which
    ensures { result ≡ which_after kind }
{
    match kind {
        Range::Current => Which::Neither,
        Range::CurrentAt | Range::Diff => Which::After,
    }
}

// Is the op visible at the range's end? With no clock every op is.
pub fn visible_after(kind: Range, before: &[u32], after: &[u32], actor: usize, counter: u64) -> bool
    requires { InAfter kind after.now actor }
    ensures { result ≡ visible_after kind after.now actor counter }
{
    match kind {
        Range::Current => true,
        Range::CurrentAt | Range::Diff => op_covers(after, actor, counter),
    }
}

// Is the op older than the range? Only where there is a clock before it.
pub fn predates(kind: Range, before: &[u32], after: &[u32], actor: usize, counter: u64) -> bool
    requires { InBefore kind before.now actor }
    ensures { result ≡ visible_before kind before.now actor counter }
{
    match kind {
        Range::Current | Range::CurrentAt => false,
        Range::Diff => op_covers(before, actor, counter),
    }
}

pub fn visible_before(
    kind: Range,
    before: &[u32],
    after: &[u32],
    actor: usize,
    counter: u64,
) -> bool
    requires { InBefore kind before.now actor }
    ensures { result ≡ visible_before kind before.now actor counter }
{
    predates(kind, before, after, actor, counter)
}
