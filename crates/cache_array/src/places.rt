//! Where lines stand: a search looks at the entries of one set.
ghost use Rattle.std.specs.Prelude.{◌≡◌, ◌⊎◌, ◌+◌, ◌*◌, ◌<◌, ◌≤◌, length, not, false, option_map, position};
ghost use Rattle.pmsi_model.specs.Phase.{set_lines, evicted};
ghost use Rattle.pmsi_model.specs.Geometry.{IsGeometry, set_of};
ghost use Rattle.pmsi_model.specs.Coherent.{HoldsEachOnce};
ghost use Rattle.cache_array.specs.Cache.{Holds, held_of};
ghost use Rattle.cache_array.specs.Entries.{lines_of, is_line, IsPlaced, IsPlaceOf, StandsAt, PutsAt, has_line, older, oldest_of};

use crate::address;
use crate::entry::Entry;
use pmsi_model::Geometry;

/// The first entry of the set of a line.
pub fn first_of_set(shape: &Geometry, line: u32) -> usize
    requires { IsGeometry shape.now }
    ensures first { result ≡ set_of shape.now line * shape.now.ways }
    ensures within { result + shape.now.ways ≤ shape.now.sets * shape.now.ways }
{
    address::set_of(shape, line) as usize * shape.ways as usize
}

/// The first entry that holds a line.
fn way_of(set: &[Entry], line: u32) -> Option<usize>
    ensures { result ≡ position (λ e. is_line line e) set.now }
{
    set.iter()
        .position(|entry| entry.held && entry.cached.line == line)
}

/// The place of a line, if it is held.
pub fn place_of(shape: &Geometry, entries: &[Entry], line: u32) -> Option<usize>
    requires shape { IsGeometry shape.now }
    requires count { length entries.now ≡ shape.now.sets * shape.now.ways }
    requires placed { IsPlaced shape.now 0 entries.now }
    requires once { HoldsEachOnce (held_of (lines_of entries.now)) }
    ensures { IsPlaceOf line entries.now result }
{
    let first = first_of_set(shape, line);
    let way = way_of(&entries[first..first + shape.ways as usize], line)?;
    Some(first + way)
}

/// The place of a line that is held.
pub fn held_place(shape: &Geometry, entries: &[Entry], line: u32) -> usize
    requires shape { IsGeometry shape.now }
    requires count { length entries.now ≡ shape.now.sets * shape.now.ways }
    requires placed { IsPlaced shape.now 0 entries.now }
    requires once { HoldsEachOnce (held_of (lines_of entries.now)) }
    requires held { Holds line (lines_of entries.now) }
    ensures { StandsAt line result entries.now }
{
    let Some(place) = place_of(shape, entries, line) else {
        unreachable!()
    };
    place
}

/// The first entry that holds no line.
fn free_way(set: &[Entry]) -> Option<usize>
    ensures { result ≡ position (λ e. not e.held) set.now }
{
    set.iter().position(|entry| !entry.held)
}

/// The first free place of the set of a line.
fn free_place(shape: &Geometry, entries: &[Entry], line: u32) -> usize
    requires shape { IsGeometry shape.now }
    requires count { length entries.now ≡ shape.now.sets * shape.now.ways }
    requires placed { IsPlaced shape.now 0 entries.now }
    requires absent { has_line line entries.now ≡ false }
    requires room { length (set_lines shape.now line (held_of (lines_of entries.now))) < shape.now.ways }
    ensures { PutsAt shape.now line result entries.now }
{
    let first = first_of_set(shape, line);
    let Some(way) = free_way(&entries[first..first + shape.ways as usize]) else {
        unreachable!()
    };
    first + way
}

/// The place for a line: its own, else the first free one of its set.
pub fn place_to_put(shape: &Geometry, entries: &[Entry], line: u32) -> usize
    requires shape { IsGeometry shape.now }
    requires count { length entries.now ≡ shape.now.sets * shape.now.ways }
    requires placed { IsPlaced shape.now 0 entries.now }
    requires once { HoldsEachOnce (held_of (lines_of entries.now)) }
    requires room { Holds line (lines_of entries.now) ⊎ (length (set_lines shape.now line (held_of (lines_of entries.now))) < shape.now.ways) }
    ensures { PutsAt shape.now line result entries.now }
{
    match place_of(shape, entries, line) {
        Some(place) => place,
        None => free_place(shape, entries, line),
    }
}

/// The age and the number of the line that is older.
fn older(found: Option<(u64, u32)>, entry: &Entry) -> Option<(u64, u32)>
    ensures { result ≡ older found entry.now }
{
    match found {
        Some((age, line)) if age < entry.age => Some((age, line)),
        _ => Some((entry.age, entry.cached.line)),
    }
}

/// The number of the least recently used line of a full set.
fn oldest(set: &[Entry]) -> Option<u32>
    ensures { result ≡ option_map (λ o. o.1) (oldest_of set.now) }
{
    let mut found = None;
    for entry in set {
        found = older(found, entry);
    }
    let (_, line) = found?;
    Some(line)
}

/// The least recently used line of the set of a line that isn't held, where the set is full.
pub fn oldest_of_set(shape: &Geometry, entries: &[Entry], line: u32) -> Option<u32>
    requires shape { IsGeometry shape.now }
    requires count { length entries.now ≡ shape.now.sets * shape.now.ways }
    requires placed { IsPlaced shape.now 0 entries.now }
    requires absent { has_line line entries.now ≡ false }
    ensures { result ≡ option_map (λ h. h.0) (evicted shape.now line (held_of (lines_of entries.now))) }
{
    let first = first_of_set(shape, line);
    let set = &entries[first..first + shape.ways as usize];
    match free_way(set) {
        Some(_) => None,
        None => oldest(set),
    }
}
