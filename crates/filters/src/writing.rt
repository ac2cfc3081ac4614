// What a filter makes of one match, written after what is written.
ghost use Rattle.std.specs.Prelude.{length};
ghost use Rattle.model.specs.Rules.{join, kept};
ghost use Rattle.strings.specs.Strings.{strs_of};
ghost use Rattle.store.specs.Each.{OneAt};
ghost use Rattle.store.specs.Put.{Put};
ghost use Rattle.filters.specs.Writing.{Exclude, Join, PutOf, PutOne, RoomAt, excludes_numbers, includes_numbers, kept_numbers, stay_numbers, strs_in};

use filter_rules::Keeper;
use join::join;
use store::Bounds;

// Writes the join of the includes within the bounds, if there are any.
fn put_join(mem: &mut [u32], bounds: Bounds, q: usize) -> usize
    requires { Join (length mem.old) bounds q }
    ensures { Put mem.old mem.new q (strs_of 0 (join (strs_in mem.old bounds.includes bounds.excludes))) result }
{
    match join(bounds.includes(mem)) {
        Some(string) => store::put_string(mem, q, string),
        None => q,
    }
}

// Writes the includes of a match that is kept: as they are, or their join.
fn put_includes(joins: bool, mem: &mut [u32], bounds: Bounds, q: usize) -> usize
    requires { RoomAt (includes_numbers joins) mem.old bounds q }
    ensures { PutOf (includes_numbers joins) mem.old mem.new bounds q result }
{
    if joins {
        return put_join(mem, bounds, q);
    }
    mem.copy_within(bounds.includes..bounds.excludes, q);
    q + (bounds.excludes - bounds.includes)
}

// Writes the exclude at k, if it stays.
fn put_exclude<K: Keeper>(keeper: K, mem: &mut [u32], bounds: Bounds, k: usize, q: usize) -> usize
    requires { Exclude (length mem.old) bounds k q (length (stay_numbers (K.keeping keeper) mem.old bounds k)) }
    ensures { Put mem.old mem.new q (stay_numbers (K.keeping keeper) mem.old bounds k) result }
{
    let exclude = store::string_at(mem, k);
    if !keeper.stays(bounds.includes(mem), exclude) {
        return q;
    }
    store::put_string(mem, q, exclude)
}

// Writes the excludes that stay of a match that is kept.
fn put_excludes<K: Keeper>(keeper: K, mem: &mut [u32], bounds: Bounds, to: usize) -> usize
    requires { RoomAt (excludes_numbers (K.keeping keeper)) mem.old bounds to }
    ensures { PutOf (excludes_numbers (K.keeping keeper)) mem.old mem.new bounds to result }
{
    let mut q = to;
    for i in 0..(bounds.end - bounds.excludes) / 2 {
        q = put_exclude(keeper, mem, bounds, bounds.excludes + 2 * i, q);
    }
    q
}

// Writes a match that is kept.
fn put_kept<K: Keeper>(keeper: K, mem: &mut [u32], bounds: Bounds, q: usize) -> usize
    requires { RoomAt (kept_numbers (K.keeping keeper)) mem.old bounds q }
    ensures { PutOf (kept_numbers (K.keeping keeper)) mem.old mem.new bounds q result }
{
    let excludes = put_includes(keeper.joins(), mem, bounds, q + store::FIRST_STRING);
    let end = put_excludes(keeper, mem, bounds, excludes);
    store::close_match(mem, q, excludes, end);
    end
}

// Writes what a filter makes of the match at `from`: the match that is kept, or nothing.
pub fn put_filtered<K: Keeper>(keeper: K, mem: &mut [u32], from: usize, q: usize) -> usize
    requires { OneAt (kept (K.keeping keeper)) mem.old from q }
    ensures { PutOne (kept (K.keeping keeper)) mem.old mem.new from q result }
{
    let bounds = store::bounds_at(mem, from);
    if !keeper.keeps(bounds.includes(mem)) {
        return q;
    }
    put_kept(keeper, mem, bounds, q)
}
