// A clock of 64 entries, lent by `&mut` and changed where it lies: thin functions over a core on its entries. They have no branch of their own;
// the core decides everything, the number included. A yes or no is told in a lent place, which every number but 0 leaves as it was. In C a `&mut Clock` is a `cg_clock *`.
#![tactic(auto)]

ghost use Rattle.std.specs.Prelude.{◌≡◌, Some};
ghost use Rattle.clock_checked.specs.Told.{SliceAsked, include_told, covers_told};
ghost use Rattle.clock_struct.specs.Clocks.{struct_done, merge_done, isolate_done, StructEntered, ClockIncluded, ClockMerged, ClockIsolated, ClockCovered};

// The first `count` entries are in use. A count above 64 is no valid clock, and answers 1.
#[repr(C)]
#[derive(Clone, Copy)]
pub struct Clock {
    pub entries: [u32; 64],
    pub count: u32,
}

// Enters a sequence at a place; where that is done, whether the entry rose is told, 1 for yes and 0 for no. The number.
pub fn include_in(entries: &mut [u32], count: u32, place: usize, seq: u32, told: &mut [u64]) -> u32
    ensures { StructEntered (include_told entries.old count place (Some seq)) told.old result entries.new told.new }
{
    let rose = clock_checked::try_include(entries, count as usize, place, Some(seq));
    clock_checked::tell_yes(rose, told);
    clock_checked::number(rose)
}

// Joins the first clock with the second: the larger entry at each place that both have. The number.
pub fn merge_in(a: &mut [u32], n: u32, b: &[u32], m: u32) -> u32
    ensures { struct_done result 0 a.new ≡ merge_done a.old n b.now m }
{
    clock_checked::number(clock_checked::try_merge(a, n as usize, b, m as usize))
}

// The entry at a place becomes the largest number. The number.
pub fn isolate_in(entries: &mut [u32], count: u32, place: usize) -> u32
    ensures { struct_done result 0 entries.new ≡ isolate_done entries.old count place }
{
    clock_checked::number(clock_checked::try_isolate(entries, count as usize, place))
}

// Is no entry of the second clock larger? 1 for yes and 0 for no is told. The number.
pub fn covers_in(a: &[u32], n: u32, b: &[u32], m: u32, told: &mut [u64]) -> u32
    ensures { SliceAsked (covers_told a.now n b.now m) told.old result told.new }
{
    let covers = clock_checked::try_covers(a, n as usize, b, m as usize);
    clock_checked::tell_yes(covers, told);
    clock_checked::number(covers)
}

#[unsafe(no_mangle)]
pub extern "C" fn cg_clock_include(c: &mut Clock, place: usize, seq: u32, told: &mut [u64]) -> u32
    ensures { ClockIncluded c.old.entries c.old.count place seq told.old result c.new.entries c.new.count told.new }
{
    include_in(&mut c.entries, c.count, place, seq, told)
}

#[unsafe(no_mangle)]
pub extern "C" fn cg_clock_merge(a: &mut Clock, b: &Clock) -> u32
    ensures { ClockMerged a.old.entries a.old.count b.now.entries b.now.count result a.new.entries a.new.count }
{
    merge_in(&mut a.entries, a.count, &b.entries, b.count)
}

#[unsafe(no_mangle)]
pub extern "C" fn cg_clock_isolate(e: &mut Clock, place: usize) -> u32
    ensures { ClockIsolated e.old.entries e.old.count place result e.new.entries e.new.count }
{
    isolate_in(&mut e.entries, e.count, place)
}

#[unsafe(no_mangle)]
pub extern "C" fn cg_clock_covers(a: &Clock, b: &Clock, told: &mut [u64]) -> u32
    ensures { ClockCovered a.now.entries a.now.count b.now.entries b.now.count told.old result told.new }
{
    covers_in(&a.entries, a.count, &b.entries, b.count, told)
}
