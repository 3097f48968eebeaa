//! Stamps: the later request has the greater one.
ghost use Rattle.std.specs.Prelude.{◌≡◌, ◌<◌, ◌≤◌, map, length};
ghost use Rattle.pmsi_model.specs.declared.limits.TheConstants.{MAX_CORES};
ghost use Rattle.memory_lut.specs.Table.{posted_of, IsTable, is_earlier, rank, ranked_entry, last_stamp};

use crate::entry::Entry;
use arrayvec::ArrayVec;
use pmsi_model::limits::CORES_ROOM;

/// Whether an entry has a stamp below this one.
fn is_earlier(entry: &Option<Entry>, stamp: u64) -> bool
    ensures { result ≡ is_earlier stamp entry.now }
{
    match entry {
        Some(entry) => entry.stamp < stamp,
        None => false,
    }
}

/// How many stamps are below this one.
fn rank(entries: &[Option<Entry>], stamp: u64) -> u64
    ensures count { result ≡ rank entries.now stamp }
    ensures few { result ≤ length entries.now }
{
    entries
        .iter()
        .filter(|entry| is_earlier(entry, stamp))
        .count() as u64
}

/// An entry whose stamp is as great as the number of those below it.
fn ranked(entries: &[Option<Entry>], entry: Option<Entry>) -> Option<Entry>
    ensures { result ≡ ranked_entry entries.now entry }
{
    let entry = entry?;
    Some(Entry {
        stamp: rank(entries, entry.stamp),
        ..entry
    })
}

/// The same requests with stamps from 0 on, in their order.
fn renumbered(old: &[Option<Entry>]) -> ArrayVec<Option<Entry>, CORES_ROOM>
    requires { length old.now ≤ MAX_CORES }
    ensures { result.items ≡ map (ranked_entry old.now) old.now }
{
    let mut entries = ArrayVec::new();
    for entry in old {
        entries.push(ranked(old, *entry));
    }
    entries
}

/// The next stamp. Where there is none left, the requests get new ones first.
pub fn take_stamp(entries: &mut Vec<Option<Entry>>, next: u64) -> u64
    requires { IsTable next entries.old.items }
    ensures posted { posted_of entries.new.items ≡ posted_of entries.old.items }
    ensures count { length entries.new.items ≡ length entries.old.items }
    ensures table { IsTable result entries.new.items }
    ensures more { result < last_stamp }
{
    if next < u64::MAX {
        return next;
    }
    let old = entries.as_slice();
    let first = rank(old, next);
    let new = renumbered(old);
    entries[..].copy_from_slice(new.as_slice());
    first
}
