//! Ages: the later use has the greater one.
ghost use Rattle.std.specs.Prelude.{◌≡◌, ◌<◌, ◌≤◌, map, length};
ghost use Rattle.cache_array.specs.Entries.{lines_of, AgesBelow, least_of, renamed, ageless, last_age};

use crate::entry::Entry;

/// The least age of a held line from an age on, or the greatest number.
fn least_from(entries: &[Entry], least: u64) -> u64
    ensures { result ≡ least_of last_age least entries.now }
{
    let mut found = u64::MAX;
    for entry in entries {
        if entry.held && least <= entry.age && entry.age < found {
            found = entry.age;
        }
    }
    found
}

/// Gives an age another number.
fn rename(entries: &mut [Entry], from: u64, to: u64)
    ensures { entries.new ≡ map (renamed from to) entries.old }
{
    for entry in entries.iter_mut() {
        entry.rename(from, to);
    }
}

/// Numbers the ages of the held lines from 0 on, in their order. The result is above them.
pub fn renumber(entries: &mut [Entry]) -> u64
    requires { AgesBelow last_age entries.old }
    ensures lines { lines_of entries.new ≡ lines_of entries.old }
    ensures rest { map ageless entries.new ≡ map ageless entries.old }
    ensures ages { AgesBelow result entries.new }
    ensures few { result ≤ length entries.old }
{
    let mut count = 0;
    loop {
        let age = least_from(entries, count);
        if age == u64::MAX {
            return count;
        }
        rename(entries, age, count);
        count += 1;
    }
}

/// An age above those of all held lines. Where there is none left, these get new ones first.
pub fn take_age(entries: &mut Vec<Entry>, next: u64) -> u64
    requires ages { AgesBelow next entries.old.items }
    requires few { length entries.old.items < last_age }
    ensures lines { lines_of entries.new.items ≡ lines_of entries.old.items }
    ensures rest { map ageless entries.new.items ≡ map ageless entries.old.items }
    ensures ages { AgesBelow result entries.new.items }
    ensures more { result < last_age }
{
    if next < u64::MAX {
        return next;
    }
    renumber(entries)
}
