// Clocks as they are lent: a slice of entries, and the count of those in use. Nothing is asked of either: more than 64 entries, a count above them, a place not
// below the count and whatever else is refused get an error of their own, and leave every entry as it was.
#![tactic(auto)]

ghost use Rattle.std.specs.Prelude.{◌≡◌, ◌&&◌, true, false, take, MatchResult};
ghost use Rattle.clock_checked.specs.Told.{entries_left, clock_lendable, clock_number, clock_refusal_number, slice_yes_in, get_told, include_told, merge_told, covers_told, isolate_told, op_told, insert_told, remove_told, after_told, before_told, place_told};
ghost use Rattle.clock_checked.specs.declared.ClockRefusal.TheVariants.{NotValid};

use clock::Range;

// Why an operation on lent clocks is refused.
#[derive(Clone, Copy, PartialEq, Eq, Debug)]
pub enum ClockRefusal {
    // more than 64 entries lent, a count above them, or clocks of different lengths given to covers
    NotValid,
    // a place not below the count
    NoPlace,
    // no room for one more entry, or a place above the count
    NoRoom,
}

// The paper's number of a refusal.
impl From<ClockRefusal> for u32 {
    ghost from_gives = { λ refusal n. n ≡ clock_refusal_number refusal };

    fn from(refusal: ClockRefusal) -> u32 {
        match refusal {
            ClockRefusal::NotValid => 1,
            ClockRefusal::NoPlace => 5,
            ClockRefusal::NoRoom => 12,
        }
    }
}

// The paper's number of an answer.
pub fn number<T: Copy>(answer: Result<T, ClockRefusal>) -> u32
    ensures { result ≡ clock_number answer }
{
    match answer {
        Ok(_) => 0,
        Err(refusal) => u32::from(refusal),
    }
}

// Tells yes as 1 and no as 0 in a lent place; a refusal leaves it as it was.
pub fn tell_yes(answer: Result<bool, ClockRefusal>, told: &mut [u64])
    ensures { told.new ≡ slice_yes_in answer told.old }
{
    if let Ok(yes) = answer {
        lent_place::tell(told, u64::from(yes));
    }
}

// The entries in use of a clock that may be lent: at most 64 entries, and the count not above them.
fn in_use(entries: &[u32], count: usize) -> Result<&[u32], ClockRefusal>
    ensures { MatchResult result (λ used. (clock_lendable entries.now count ≡ true) × (used.now ≡ take count entries.now)) (λ e. (clock_lendable entries.now count ≡ false) × (e ≡ NotValid)) }
{
    if 64 < entries.len() {
        return Err(ClockRefusal::NotValid);
    }
    entries.get(..count).ok_or(ClockRefusal::NotValid)
}

// The entries in use of two clocks that may be lent.
fn both_in_use<'a>(
    a: &'a [u32],
    n: usize,
    b: &'a [u32],
    m: usize,
) -> Result<(&'a [u32], &'a [u32]), ClockRefusal>
    ensures { MatchResult result (λ used. ((clock_lendable a.now n && clock_lendable b.now m) ≡ true) × (used.0.now ≡ take n a.now) × (used.1.now ≡ take m b.now)) (λ e. ((clock_lendable a.now n && clock_lendable b.now m) ≡ false) × (e ≡ NotValid)) }
{
    Ok((in_use(a, n)?, in_use(b, m)?))
}

// Whether a clock may be lent and has the place among its entries in use.
fn has_place(entries: &[u32], count: usize, place: usize) -> Result<(), ClockRefusal>
    ensures { result ≡ place_told entries.now count place }
{
    if in_use(entries, count)?.len() <= place {
        return Err(ClockRefusal::NoPlace);
    }
    Ok(())
}

// The entry at a place, nothing for a place not below the count.
pub fn try_get(entries: &[u32], count: usize, a: usize) -> Result<u32, ClockRefusal>
    ensures { result ≡ get_told entries.now count a }
{
    Ok(clock::get(in_use(entries, count)?, a))
}

// Enters a sequence; says whether.
pub fn try_include(
    entries: &mut [u32],
    count: usize,
    place: usize,
    sequence: Option<u32>,
) -> Result<bool, ClockRefusal>
    ensures { entries_left result entries.new ≡ include_told entries.old count place sequence }
{
    has_place(entries, count, place)?;
    Ok(clock::include(entries, place, sequence))
}

// Joins the first n of a with the first m of b; clocks of different lengths are no refusal.
pub fn try_merge(a: &mut [u32], n: usize, b: &[u32], m: usize) -> Result<(), ClockRefusal>
    ensures { entries_left result a.new ≡ merge_told a.old n b.now m }
{
    both_in_use(a, n, b, m)?;
    clock::merge(&mut a[..n], &b[..m]);
    Ok(())
}

// Does the first of two clocks of one length cover the second?
pub fn try_covers(a: &[u32], n: usize, b: &[u32], m: usize) -> Result<bool, ClockRefusal>
    ensures { result ≡ covers_told a.now n b.now m }
{
    let (a, b) = both_in_use(a, n, b, m)?;
    if n != m {
        return Err(ClockRefusal::NotValid);
    }
    Ok(clock::covers(a, b))
}

// The entry at a place becomes the largest number.
pub fn try_isolate(entries: &mut [u32], count: usize, a: usize) -> Result<(), ClockRefusal>
    ensures { entries_left result entries.new ≡ isolate_told entries.old count a }
{
    has_place(entries, count, a)?;
    clock::isolate(entries, a);
    Ok(())
}

// Does the op clock cover the op?
pub fn try_op_covers(
    entries: &[u32],
    count: usize,
    actor: usize,
    counter: u64,
) -> Result<bool, ClockRefusal>
    ensures { result ≡ op_told entries.now count actor counter }
{
    has_place(entries, count, actor)?;
    Ok(clock::op_covers(entries, actor, counter))
}

// A new actor at place p. The count is the caller's to raise where that is done.
pub fn try_rewrite_with_new_actor(
    entries: &mut [u32],
    count: usize,
    p: usize,
) -> Result<(), ClockRefusal>
    ensures { entries_left result entries.new ≡ insert_told entries.old count p }
{
    in_use(entries, count)?;
    if count < p || entries.len() <= count {
        return Err(ClockRefusal::NoRoom);
    }
    clock::rewrite_with_new_actor(entries, count, p);
    Ok(())
}

// The actor at place p goes. The count is the caller's to lower where that is done.
pub fn try_remove_actor(entries: &mut [u32], count: usize, p: usize) -> Result<(), ClockRefusal>
    ensures { entries_left result entries.new ≡ remove_told entries.old count p }
{
    has_place(entries, count, p)?;
    clock::remove_actor(entries, count, p);
    Ok(())
}

// Is the op visible at the range's end? Both clocks are checked, and the place only where a clock is asked.
pub fn try_visible_after(
    kind: Range,
    before: &[u32],
    n: usize,
    after: &[u32],
    m: usize,
    actor: usize,
    counter: u64,
) -> Result<bool, ClockRefusal>
    ensures { result ≡ after_told kind before.now n after.now m actor counter }
{
    both_in_use(before, n, after, m)?;
    match kind {
        Range::Current => Ok(true),
        Range::CurrentAt | Range::Diff => try_op_covers(after, m, actor, counter),
    }
}

// Is the op older than the range?
pub fn try_visible_before(
    kind: Range,
    before: &[u32],
    n: usize,
    after: &[u32],
    m: usize,
    actor: usize,
    counter: u64,
) -> Result<bool, ClockRefusal>
    ensures { result ≡ before_told kind before.now n after.now m actor counter }
{
    both_in_use(before, n, after, m)?;
    match kind {
        Range::Current | Range::CurrentAt => Ok(false),
        Range::Diff => try_op_covers(before, n, actor, counter),
    }
}
