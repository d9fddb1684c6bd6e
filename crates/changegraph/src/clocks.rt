// Clocks by themselves, from C: of 64 entries lent by `&mut`, and on slices of entries.
ghost use Rattle.clock_checked.specs.Told.{get_told, SliceAsked, op_told, insert_told, remove_told, after_told, before_told};
ghost use Rattle.clock_struct.specs.Clocks.{ClockIncluded, ClockMerged, ClockIsolated, ClockCovered};
ghost use Rattle.hub_clock_slices.specs.Face.{SliceGave, SliceChanged, range_of};

use clock_struct::Clock;

#[unsafe(no_mangle)]
pub extern "C" fn cg_clock_include(c: &mut Clock, place: usize, seq: u32, told: &mut [u64]) -> u32
    ensures { ClockIncluded c.old.entries c.old.count place seq told.old result c.new.entries c.new.count told.new }
{
    clock_struct::cg_clock_include(c, place, seq, told)
}

#[unsafe(no_mangle)]
pub extern "C" fn cg_clock_merge(a: &mut Clock, b: &Clock) -> u32
    ensures { ClockMerged a.old.entries a.old.count b.now.entries b.now.count result a.new.entries a.new.count }
{
    clock_struct::cg_clock_merge(a, b)
}

#[unsafe(no_mangle)]
pub extern "C" fn cg_clock_isolate(e: &mut Clock, place: usize) -> u32
    ensures { ClockIsolated e.old.entries e.old.count place result e.new.entries e.new.count }
{
    clock_struct::cg_clock_isolate(e, place)
}

#[unsafe(no_mangle)]
pub extern "C" fn cg_clock_covers(a: &Clock, b: &Clock, told: &mut [u64]) -> u32
    ensures { ClockCovered a.now.entries a.now.count b.now.entries b.now.count told.old result told.new }
{
    clock_struct::cg_clock_covers(a, b, told)
}

#[unsafe(no_mangle)]
pub extern "C" fn cg_clock_get(entries: &[u32], count: usize, place: usize, told: &mut [u64]) -> u32
    ensures { SliceGave (get_told entries.now count place) told.old result told.new }
{
    hub_clock_slices::cg_clock_get(entries, count, place, told)
}

#[unsafe(no_mangle)]
pub extern "C" fn cg_clock_op_covers(
    entries: &[u32],
    count: usize,
    actor: usize,
    counter: u64,
    told: &mut [u64],
) -> u32
    ensures { SliceAsked (op_told entries.now count actor counter) told.old result told.new }
{
    hub_clock_slices::cg_clock_op_covers(entries, count, actor, counter, told)
}

#[unsafe(no_mangle)]
pub extern "C" fn cg_clock_rewrite_with_new_actor(
    entries: &mut [u32],
    count: usize,
    place: usize,
) -> u32
    ensures { SliceChanged (insert_told entries.old count place) result entries.new }
{
    hub_clock_slices::cg_clock_rewrite_with_new_actor(entries, count, place)
}

#[unsafe(no_mangle)]
pub extern "C" fn cg_clock_remove_actor(entries: &mut [u32], count: usize, place: usize) -> u32
    ensures { SliceChanged (remove_told entries.old count place) result entries.new }
{
    hub_clock_slices::cg_clock_remove_actor(entries, count, place)
}

#[unsafe(no_mangle)]
pub extern "C" fn cg_clock_visible_after(
    kind: u32,
    before: &[u32],
    n: usize,
    after: &[u32],
    m: usize,
    actor: usize,
    counter: u64,
    told: &mut [u64],
) -> u32
    ensures { SliceAsked (after_told (range_of kind) before.now n after.now m actor counter) told.old result told.new }
{
    hub_clock_slices::cg_clock_visible_after(kind, before, n, after, m, actor, counter, told)
}

#[unsafe(no_mangle)]
pub extern "C" fn cg_clock_visible_before(
    kind: u32,
    before: &[u32],
    n: usize,
    after: &[u32],
    m: usize,
    actor: usize,
    counter: u64,
    told: &mut [u64],
) -> u32
    ensures { SliceAsked (before_told (range_of kind) before.now n after.now m actor counter) told.old result told.new }
{
    hub_clock_slices::cg_clock_visible_before(kind, before, n, after, m, actor, counter, told)
}
