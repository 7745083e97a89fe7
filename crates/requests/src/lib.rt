// The table of 96 places for requests that wait for their reply. A search reads only the columns that it needs.
#![tactic(auto)]

ghost use Rattle.std.specs.Prelude.{◌≡◌, ◌<◌, ◌≤◌, get_or, is_some};
ghost use Rattle.scan.specs.Scan.{exists};
ghost use Rattle.requests.specs.Requests.{places, free_slot, slot_of, fresh_requests, is_data, used_of, Free, Id, Settling, place_at, lowest, with_request, trimmed, freed, ends, released, cleared, same, distinct, ids_differ};

use device::{Rows, Scope};
use endpoint::Endpoint;

// The places of the table.
pub const PLACES: usize = 96;

// What is kept of a request; a packet that has no endpoint, interface or length gives 0 for it.
#[derive(Clone, Copy)]
pub struct Request {
    pub id: u64,
    // a byte: a caller's session record may have any, and gets its answer
    pub kind: u8,
    // the endpoint or interface byte
    pub target: u8,
    pub length: u32,
}

// What a place keeps of a request besides its id and kind.
#[derive(Clone, Copy)]
pub struct Slot {
    pub length: u32,
    // the endpoint or interface byte
    pub target: u8,
}

// The table in columns. From `fresh` on, all is zero where a place is free; what stands at `used` and above is not
// looked at.
#[derive(Clone, Copy)]
pub struct Requests {
    // live places lie below it; over 96 it reads as 96
    pub used: usize,
    pub live: [bool; PLACES],
    pub kinds: [u8; PLACES],
    pub ids: [u64; PLACES],
    pub slots: [Slot; PLACES],
}

// Which requests a reply answers: those of one of two kinds, and of the reply's own endpoint or interface where it has
// one.
#[derive(Clone, Copy)]
pub struct Answerable {
    // bytes, as `Request::kind`
    pub first: u8,
    pub second: u8,
    pub targeted: bool,
}

// A data request, by its kind.
fn is_data(kind: u8) -> bool
    ensures { result ≡ is_data kind }
{
    matches!(kind, 100 | 101 | 103)
}

pub fn free_slot() -> Slot
    ensures { result ≡ free_slot }
{
    Slot {
        length: 0,
        target: 0,
    }
}

// What a place keeps of a request besides its id and kind.
pub fn slot_for(r: Request) -> Slot
    ensures { result ≡ slot_of r }
{
    Slot {
        length: r.length,
        target: r.target,
    }
}

// A table of 96 places, all free.
pub fn fresh() -> Requests
    ensures { result ≡ fresh_requests }
{
    let f = free_slot();
    let live: [bool; PLACES] = [false; PLACES];
    let kinds: [u8; PLACES] = [0; PLACES];
    let ids: [u64; PLACES] = [0; PLACES];
    let slots = [f; PLACES];
    Requests {
        used: 0,
        live,
        kinds,
        ids,
        slots,
    }
}

impl Requests {
    // The places that are gone over, at most 96.
    fn bound(&self) -> usize
        ensures { (result ≡ used_of self.now) × (result ≤ places) }
    {
        self.used.min(PLACES)
    }

    // A request waits at place i.
    fn is_live(&self, i: usize) -> bool
        requires { i < places }
        ensures { result ≡ (place_at self.now i).live }
    {
        (i < self.bound()) & self.live[i]
    }

    // The lowest place of a live request with this id.
    pub fn find_id(&self, id: u64) -> Option<usize>
        ensures { result ≡ lowest self.now (Id id) }
    {
        let n = self.bound();
        for i in 0..n {
            if self.live[i] & (self.ids[i] == id) {
                return Some(i);
            }
        }
        None
    }

    // The lowest free place.
    pub fn find_free(&self) -> Option<usize>
        ensures { result ≡ lowest self.now Free }
    {
        let n = self.bound();
        let next = (n < PLACES).then_some(n);
        self.live[..n].iter().position(|live| !*live).or(next)
    }

    // A set configuration or set alt waits.
    pub fn is_settling(&self) -> bool
        ensures { result ≡ is_some (lowest self.now Settling) }
    {
        let n = self.bound();
        for i in 0..n {
            if self.live[i] & ((self.kinds[i] == 6) | (self.kinds[i] == 9)) {
                return true;
            }
        }
        false
    }

    // The kind of the request at place i, 0 past the last.
    pub fn kind_at(&self, i: usize) -> u8
        ensures { result ≡ get_or self.now.kinds i 0 }
    {
        if i < PLACES { self.kinds[i] } else { 0 }
    }

    // The slot of place i, a free one past the last.
    pub fn slot_at(&self, i: usize) -> Slot
        ensures { result ≡ get_or self.now.slots i free_slot }
    {
        if i < PLACES {
            self.slots[i]
        } else {
            free_slot()
        }
    }

    // No two live requests have one id. The ids are gathered first: few requests live at a time.
    pub fn ids_differ(&self) -> bool
        ensures { result ≡ ids_differ self.now }
    {
        let n = self.bound();
        let is_few = n < 2;
        if is_few {
            return true;
        }
        // fixed memory, with a count beside it: no heap
        let mut gathered: [u64; PLACES] = [0; PLACES];
        let mut k: usize = 0;
        for i in 0..n {
            if self.live[i] {
                gathered[k] = self.ids[i];
                k += 1;
            }
        }
        all_differ(&gathered[..k])
    }

    // A request takes place i; nothing changes past the last.
    pub fn take(&mut self, i: usize, r: Request)
        ensures { self.new ≡ with_request self.old i r }
    {
        if i < PLACES {
            self.used = self.used.max(i + 1);
            self.live[i] = true;
            self.kinds[i] = r.kind;
            self.ids[i] = r.id;
            self.slots[i] = slot_for(r);
        }
    }

    // What the live places lie below, where they lie below `used`.
    fn trim(&self) -> usize
        ensures { result ≡ trimmed self.now.live (used_of self.now) }
    {
        let n = self.bound();
        for i in (0..n).rev() {
            if self.live[i] {
                return i + 1;
            }
        }
        0
    }

    // Place i is free.
    pub fn free(&mut self, i: usize)
        ensures { self.new ≡ freed self.old i }
    {
        if i < PLACES {
            self.live[i] = false;
            self.kinds[i] = 0;
            self.ids[i] = 0;
            self.slots[i] = free_slot();
        }
        self.used = self.trim();
    }

    // A data request, by its kind, on the rows in scope waits at place i.
    fn is_ending(&self, i: usize, rows: &Rows, s: Scope) -> bool
        requires { i < places }
        ensures { result ≡ ends rows.now s (place_at self.now i) }
    {
        self.is_live(i) & is_data(self.kinds[i]) & rows.touches(s, Endpoint(self.slots[i].target))
    }

    // Place i is free, and so are the places of the data requests on the rows in scope.
    pub fn release(&mut self, i: usize, rows: &Rows, s: Scope)
        ensures { self.new ≡ released self.old i rows.now s }
    {
        self.free(i);
        for j in 0..PLACES {
            if self.is_ending(j, rows, s) {
                self.free(j);
            }
        }
    }

    // Every place is free.
    pub fn clear(&mut self)
        ensures { self.new ≡ cleared self.old }
    {
        self.used = self.trim();
        for i in 0..PLACES {
            if self.is_live(i) {
                self.free(i);
            }
        }
    }
}

// One of these numbers is n. The library's `contains` takes a third more time where the table is full. Without a way out
// of the loop several numbers are compared at once.
fn occurs(ids: &[u64], n: u64) -> bool
    ensures { result ≡ exists (same n) ids.now }
{
    let mut found = false;
    for i in 0..ids.len() {
        found |= ids[i] == n;
    }
    found
}

// None of these numbers stands there twice.
fn all_differ(ids: &[u64]) -> bool
    ensures { result ≡ distinct ids.now }
{
    for (i, id) in ids.iter().enumerate() {
        if occurs(&ids[i + 1..], *id) {
            return false;
        }
    }
    true
}
