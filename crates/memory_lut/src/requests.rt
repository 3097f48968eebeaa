//! The posted requests, in a table with an entry for each core.
ghost use Rattle.std.specs.Prelude.{◌≡◌, ◌<◌, ◌≤◌, ◌∷◌, ◌++◌, [], ◌==◌, ◌&&◌, length, IfOk, None, Some, option_map, slice_index_or};
ghost use Rattle.std.specs.List.{filter, list_any};
ghost use Rattle.pmsi_model.specs.declared.limits.TheConstants.{MAX_CORES};
ghost use Rattle.pmsi_model.specs.Machine.{is_write, first_of, ahead, request_of, removed};
ghost use Rattle.pmsi_model.specs.Bus.{is_core};
ghost use Rattle.pmsi_model.specs.Shared.{behind_in};
ghost use Rattle.memory_lut.specs.Table.{request_at, sooner, soonest, is_before, meets, queued};

use crate::entry::Entry;
use crate::stamps;
use pmsi_model::{Behind, Kind, NoMemory};
use std::alloc::Global;
use std::marker::Model;

/// The posted requests. The entry of a core is at its number.
#[derive(Drop)]
pub struct Requests {
    entries: Vec<Option<Entry>>,
    /// Above the stamp of each request.
    next: u64,
}

impl Model for Requests {
    ghost use Rattle.memory_lut.specs.Table.{TableValue, table_of, IsTable};

    ghost Value = { TableValue };

    ghost view = { λ a. table_of a.entries.items };

    ghost invariant = { λ a. IsTable a.next a.entries.items };
}

/// The earlier of a line's request that was found and an entry's, where that is for the line.
fn sooner(line: u32, found: Option<Entry>, entry: Option<Entry>) -> Option<Entry>
    ensures { result ≡ sooner line found entry }
{
    match (found, entry) {
        (_, None) => found,
        (None, Some(new)) if new.line == line => entry,
        (None, Some(_)) => None,
        (Some(old), Some(new)) if new.line == line && new.stamp < old.stamp => entry,
        (Some(_), Some(_)) => found,
    }
}

/// A line's request of the least stamp.
fn soonest(entries: &[Option<Entry>], line: u32) -> Option<Entry>
    ensures { result ≡ soonest line entries.now }
{
    let mut first = None;
    for entry in entries {
        first = sooner(line, first, *entry);
    }
    first
}

/// Whether an entry has a request for a line, with a stamp below this one.
fn is_before(entry: &Option<Entry>, line: u32, stamp: u64) -> bool
    ensures { result ≡ is_before line stamp entry.now }
{
    match entry {
        Some(entry) => entry.line == line && entry.stamp < stamp,
        None => false,
    }
}

/// How many requests for a line have a stamp below this one.
fn count_before(entries: &[Option<Entry>], line: u32, stamp: u64) -> u32
    requires { length entries.now ≤ MAX_CORES }
    ensures { result ≡ length (filter (is_before line stamp) entries.now) }
{
    entries
        .iter()
        .filter(|entry| is_before(entry, line, stamp))
        .count() as u32
}

fn is_request(entry: &Option<Entry>, line: u32) -> bool
    ensures { result ≡ meets (λ r. r.line == line) entry.now }
{
    match entry {
        Some(entry) => entry.line == line,
        None => false,
    }
}

fn is_write(entry: &Option<Entry>, line: u32) -> bool
    ensures { result ≡ meets (λ r. (r.line == line) && is_write r.kind) entry.now }
{
    match entry {
        Some(entry) => entry.line == line && entry.kind == Kind::Write,
        None => false,
    }
}

fn has_request(entries: &[Option<Entry>], line: u32) -> bool
    ensures { result ≡ list_any (meets (λ r. r.line == line)) entries.now }
{
    entries.iter().any(|entry| is_request(entry, line))
}

fn has_write(entries: &[Option<Entry>], line: u32) -> bool
    ensures { result ≡ list_any (meets (λ r. (r.line == line) && is_write r.kind)) entries.now }
{
    entries.iter().any(|entry| is_write(entry, line))
}

/// What is queued for a line.
fn queued(entries: &[Option<Entry>], line: u32) -> Behind
    ensures { result ≡ queued line entries.now }
{
    if has_write(entries, line) {
        Behind::Write
    } else if has_request(entries, line) {
        Behind::Reads
    } else {
        Behind::Nobody
    }
}

/// The entry of a core.
fn entry_of(entries: &[Option<Entry>], core: u32) -> Option<Entry>
    ensures { result ≡ slice_index_or entries.now core None }
{
    match entries.get(core as usize) {
        Some(entry) => *entry,
        None => None,
    }
}

impl Requests {
    /// A table for so many cores, without requests.
    pub fn new(alloc: Global, cores: u32) -> Result<Requests, NoMemory>
        requires { cores ≤ MAX_CORES }
        ensures { IfOk result (λ r. r ≡ record { cores = cores; posted = [] }) }
    {
        Ok(Requests {
            entries: vec![in alloc; None; cores as usize]?,
            next: 0,
        })
    }

    /// The request goes last.
    pub fn push(&mut self, core: u32, line: u32, kind: Kind)
        requires core { core < self.old.cores }
        requires unposted { request_of core self.old.posted ≡ None }
        ensures { self.new ≡ record self.old { posted = self.old.posted ++ record { core = core; line = line; kind = kind } ∷ [] } }
    {
        let stamp = stamps::take_stamp(&mut self.entries, self.next);
        self.entries[core as usize] = Some(Entry {
            core,
            line,
            kind,
            stamp,
        });
        self.next = stamp + 1;
    }

    /// The request of a core.
    pub fn of_core(&self, core: u32) -> Option<Entry>
        ensures { option_map request_at result ≡ request_of core self.now.posted }
    {
        entry_of(self.entries.as_slice(), core)
    }

    /// The core of a line's first request.
    pub fn first(&self, line: u32) -> Option<u32>
        ensures { result ≡ first_of line self.now.posted }
    {
        let entry = soonest(self.entries.as_slice(), line)?;
        Some(entry.core)
    }

    /// Whether a core's request is the first of a line.
    pub fn is_first(&self, core: u32, line: u32) -> bool
        ensures { result ≡ is_core core (first_of line self.now.posted) }
    {
        match self.first(line) {
            Some(first) => first == core,
            None => false,
        }
    }

    /// How many requests for the line of a core's request stand before it.
    pub fn ahead(&self, core: u32) -> Option<u32>
        ensures { result ≡ option_map (λ r. ahead core r.line self.now.posted) (request_of core self.now.posted) }
    {
        let entries = self.entries.as_slice();
        let own = entry_of(entries, core)?;
        Some(count_before(entries, own.line, own.stamp))
    }

    /// What is queued for a line.
    pub fn queued(&self, line: u32) -> Behind
        ensures { result ≡ behind_in line self.now.posted }
    {
        queued(self.entries.as_slice(), line)
    }

    /// Takes the request of a core away.
    pub fn remove(&mut self, core: u32)
        requires { core < self.old.cores }
        ensures { self.new ≡ record self.old { posted = removed core self.old.posted } }
    {
        self.entries[core as usize] = None;
    }

    /// An equal table.
    pub fn copy(&self, alloc: Global) -> Result<Requests, NoMemory>
        ensures { IfOk result (λ r. r ≡ self.now) }
    {
        Ok(Requests {
            entries: Vec::from_slice(alloc, self.entries.as_slice())?,
            next: self.next,
        })
    }
}
