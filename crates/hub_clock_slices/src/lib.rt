// Clocks on slices, from C: the entries and the count of those in use. Each function answers the paper's number of what `clock_checked` answers; a yes or no, and an
// entry, are told in a lent place, which every number but 0 leaves as it was.
#![tactic(auto)]

ghost use Rattle.std.specs.Prelude.{◌≡◌};
ghost use Rattle.clock_checked.specs.Told.{SliceAsked, get_told, op_told, insert_told, remove_told, after_told, before_told};
ghost use Rattle.hub_clock_slices.specs.Face.{entry_in, SliceGave, SliceChanged, range_of};

use clock::Range;
use clock_checked::ClockRefusal;

// Tells the entry; a refusal leaves the place as it was.
fn tell_entry(answer: Result<u32, ClockRefusal>, told: &mut [u64])
    ensures { told.new ≡ entry_in answer told.old }
{
    if let Ok(entry) = answer {
        lent_place::tell(told, u64::from(entry));
    }
}

// The kind of a range: 0 and 1 for the first two, and every other number for the third.
fn range_of(kind: u32) -> Range
    ensures { result ≡ range_of kind }
{
    match kind {
        0 => Range::Current,
        1 => Range::CurrentAt,
        _ => Range::Diff,
    }
}

// The entry at a place, nothing for a place not below the count: 1 or 0.
#[unsafe(no_mangle)]
pub extern "C" fn cg_clock_get(entries: &[u32], count: usize, place: usize, told: &mut [u64]) -> u32
    ensures { SliceGave (get_told entries.now count place) told.old result told.new }
{
    let entry = clock_checked::try_get(entries, count, place);
    tell_entry(entry, told);
    clock_checked::number(entry)
}

// Does the op clock cover the op? 1, 5 or 0.
#[unsafe(no_mangle)]
pub extern "C" fn cg_clock_op_covers(
    entries: &[u32],
    count: usize,
    actor: usize,
    counter: u64,
    told: &mut [u64],
) -> u32
    ensures { SliceAsked (op_told entries.now count actor counter) told.old result told.new }
{
    let covers = clock_checked::try_op_covers(entries, count, actor, counter);
    clock_checked::tell_yes(covers, told);
    clock_checked::number(covers)
}

// A new actor at a place: 1, 12 or 0. The count is the caller's to raise.
#[unsafe(no_mangle)]
pub extern "C" fn cg_clock_rewrite_with_new_actor(
    entries: &mut [u32],
    count: usize,
    place: usize,
) -> u32
    ensures { SliceChanged (insert_told entries.old count place) result entries.new }
{
    clock_checked::number(clock_checked::try_rewrite_with_new_actor(entries, count, place))
}

// The actor at a place goes: 1, 5 or 0. The count is the caller's to lower.
#[unsafe(no_mangle)]
pub extern "C" fn cg_clock_remove_actor(entries: &mut [u32], count: usize, place: usize) -> u32
    ensures { SliceChanged (remove_told entries.old count place) result entries.new }
{
    clock_checked::number(clock_checked::try_remove_actor(entries, count, place))
}

// Is the op visible at the range's end? 1, 5 or 0.
#[unsafe(no_mangle)]
pub extern "C" fn cg_clock_visible_after(
    kind: u32,
    before: &[u32],
    n: usize,
    after: &[u32],
    m: usize,
    actor: usize,
    counter: u64,
    told: &mut [u64],
) -> u32
    ensures { SliceAsked (after_told (range_of kind) before.now n after.now m actor counter) told.old result told.new }
{
    let kind = range_of(kind);
    let visible = clock_checked::try_visible_after(kind, before, n, after, m, actor, counter);
    clock_checked::tell_yes(visible, told);
    clock_checked::number(visible)
}

// Is the op older than the range? 1, 5 or 0.
#[unsafe(no_mangle)]
pub extern "C" fn cg_clock_visible_before(
    kind: u32,
    before: &[u32],
    n: usize,
    after: &[u32],
    m: usize,
    actor: usize,
    counter: u64,
    told: &mut [u64],
) -> u32
    ensures { SliceAsked (before_told (range_of kind) before.now n after.now m actor counter) told.old result told.new }
{
    let kind = range_of(kind);
    let visible = clock_checked::try_visible_before(kind, before, n, after, m, actor, counter);
    clock_checked::tell_yes(visible, told);
    clock_checked::number(visible)
}
