// The session: its record, what 43 tests of it, and a change made to it.
#![tactic(auto)]

ghost use Rattle.std.specs.Prelude.{◌≡◌};
ghost use Rattle.watch.specs.Watch.{breaks_on, gap_on};
ghost use Rattle.checks.specs.Change.{is_opening, is_stalling};
ghost use Rattle.session.specs.Session.{fresh_session, link_to, shared_in, is_wide, held_in, count_as, held_to, held_bad, unfit};
ghost use Rattle.session.specs.Step.{kept_hello, hello_to, device_to, introduced, stream_by, released_at, begun_by, applied};

use checks::{Change, StreamMove};
use device::{Head, Held, Introduction, Rows, Scope, start_head, start_rows};
use endpoint::Row;
use events::Typed;
use header::{HOLD_SIZE, Link, Side, has_passed, shared_set};
use octets::has_bit;
use requests::{PLACES, Requests, fresh};
use watch::{Watch, start_watch};

// The most bytes that are held: the longest packet but for its last byte.
const MAX_HELD: usize = HOLD_SIZE - 1;

// No check reads the watch.
#[derive(Clone, Copy)]
pub struct Session {
    pub head: Head,
    pub rows: Rows,
    pub requests: Requests,
    pub watch: Watch,
}

// A session at its start: no hello has passed.
pub fn fresh_session() -> Session
    ensures { result ≡ fresh_session }
{
    Session {
        head: start_head(),
        rows: start_rows(),
        requests: fresh(),
        watch: start_watch(),
    }
}

// One direction of a session, as the wire checks see it.
pub fn link_to(h: Head, from: Side) -> Link
    ensures { result ≡ link_to from h }
{
    Link {
        sender: from,
        guest: h.guest,
        host: h.host,
    }
}

fn has_shared_bit(h: Head, bit: u32) -> bool
    ensures { result ≡ shared_in h bit }
{
    has_bit(shared_set(link_to(h, Side::Guest)), bit)
}

// Ids have 64 bits.
pub fn has_wide_ids(h: Head) -> bool
    ensures { result ≡ is_wide h }
{
    has_shared_bit(h, 5)
}

// How many packets of a row's streams had another id than the expected one, as far as 65,535; 0 for a row that is not
// watched.
pub fn breaks_on(s: Session, r: Row) -> u16
    ensures { result ≡ breaks_on s.watch r }
{
    s.watch.breaks_on(r)
}

// How far ahead of the expected id the last packet of a row lay that had another; 0 where none had, and for a row that
// is not watched.
pub fn gap_on(s: Session, r: Row) -> u64
    ensures { result ≡ gap_on s.watch r }
{
    s.watch.gap_on(r)
}

// The bytes that a direction holds.
pub fn held_in(h: Head, from: Side) -> usize
    ensures { result ≡ held_in from h }
{
    match from {
        Side::Guest => h.held.guest,
        Side::Host => h.held.host,
    }
}

fn count_as(held: Held, from: Side, n: usize) -> Held
    ensures { result ≡ count_as from n held }
{
    match from {
        Side::Guest => Held { guest: n, ..held },
        Side::Host => Held { host: n, ..held },
    }
}

// The head with so many bytes held in a direction; stopped or not.
pub fn hold_to(h: Head, from: Side, n: usize, stopped: bool) -> Head
    ensures { result ≡ held_to from n stopped h }
{
    Head {
        held: count_as(h.held, from, n),
        stopped,
        ..h
    }
}

fn is_held_bad(own: Option<u32>, other: Option<u32>, n: usize) -> bool
    ensures { result ≡ held_bad own other n }
{
    (MAX_HELD < n) | (has_passed(own) & !has_passed(other) & (0 < n))
}

// The first word of a side's hello; one that has passed stays as it is.
fn keep_hello(h: Option<u32>, word: u32) -> Option<u32>
    ensures { result ≡ kept_hello h word }
{
    h.or(Some(word))
}

fn set_hello(h: &mut Head, from: Side, word: u32)
    ensures { h.new ≡ hello_to h.old from word }
{
    match from {
        Side::Guest => h.guest = keep_hello(h.guest, word),
        Side::Host => h.host = keep_hello(h.host, word),
    }
}

fn set_device(h: &mut Head, present: bool, introduction: Introduction, owed: bool)
    ensures { h.new ≡ device_to h.old present introduction owed }
{
    h.present = present;
    h.introduction = introduction;
    h.owed = owed;
}

// With no device the introduction goes on; with one it stays.
fn introduce(h: &mut Head, i: Introduction)
    ensures { h.new ≡ introduced i h.old }
{
    if !h.present {
        h.introduction = i;
    }
}

// Named as its definition is.
fn is_opening(m: StreamMove) -> bool
    ensures { result ≡ is_opening m }
{
    matches!(m, StreamMove::Opens)
}

fn is_stalling(m: StreamMove) -> bool
    ensures { result ≡ is_stalling m }
{
    matches!(m, StreamMove::Stalls)
}

// Opens or closes the stream of an endpoint.
fn set_stream(rows: &mut Rows, typed: Typed, streaming: bool)
    ensures { rows.new ≡ stream_by rows.old typed streaming }
{
    match typed {
        Typed::Untyped => {}
        Typed::OfEndpoint(e, ty) => rows.set_stream(e, ty, streaming),
        Typed::OfMask(_, _) => {}
    }
}

// The request at a place ends, and so do the data requests on the rows in scope; none where there is no such place.
fn release(t: &mut Requests, place: Option<usize>, rows: &Rows, scope: Scope)
    ensures { t.new ≡ released_at t.old place rows.now scope }
{
    let Some(i) = place else {
        return;
    };
    if i < PLACES {
        match scope {
            Scope::NoRow => t.free(i),
            Scope::EveryRow | Scope::OfInterface(_) => t.release(i, rows, scope),
        }
    }
}

// The ids of an endpoint begin anew.
fn begin(w: &mut Watch, typed: Typed)
    ensures { w.new ≡ begun_by w.old typed }
{
    match typed {
        Typed::Untyped => {}
        Typed::OfEndpoint(e, _) => w.begin(e),
        Typed::OfMask(_, _) => {}
    }
}

impl Session {
    // What 43 tests of a session: held counts, ids of live requests, rows 0 and 16.
    pub fn is_unfit(&self) -> bool
        ensures { result ≡ unfit self.now }
    {
        let h = &self.head;
        is_held_bad(h.guest, h.host, h.held.guest)
            | is_held_bad(h.host, h.guest, h.held.host)
            | !self.requests.ids_differ()
            | !self.rows.has_control_rows()
    }

    // Makes the change of a packet that passed, which announces these rows if it is an endpoint table.
    pub fn apply(&mut self, from: Side, c: Change, new: &Rows)
        ensures { self.new ≡ applied self.old from c new.now }
    {
        match c {
            Change::NoChange => {}
            Change::Hello(word) => set_hello(&mut self.head, from, word),
            Change::Connect => self.head.present = true,
            Change::Interfaces => introduce(&mut self.head, Introduction::Two),
            Change::Endpoints => {
                introduce(&mut self.head, Introduction::One);
                self.rows.replace(*new);
            }
            Change::Disconnect => {
                let owed = has_shared_bit(self.head, 3);
                set_device(&mut self.head, false, Introduction::Unintroduced, owed);
                self.rows = start_rows();
                self.requests.clear();
                self.watch.forget();
            }
            Change::Reset => {
                self.rows.close(Scope::EveryRow);
                self.requests.clear();
            }
            Change::Acknowledge => self.head.owed = false,
            Change::Take(i, q) => self.requests.take(i, q),
            Change::TakeAndOpen(i, q, typed) => {
                self.requests.take(i, q);
                set_stream(&mut self.rows, typed, true);
                begin(&mut self.watch, typed);
            }
            Change::Release(place, typed, stream, scope) => {
                release(&mut self.requests, place, &self.rows, scope);
                set_stream(&mut self.rows, typed, is_opening(stream));
                self.rows.close(scope);
                if is_stalling(stream) {
                    begin(&mut self.watch, typed);
                }
            }
            Change::Seen(e, id) => {
                let wide = has_wide_ids(self.head);
                self.watch.see(e, wide, id);
            }
        }
    }
}
