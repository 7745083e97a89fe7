// A script of reader calls, made one after the other on a fresh session: for hosts in other languages that test the
// gate, with plain numbers and byte slices. It is not part of the product's interface.
#![tactic(auto)]

ghost use Rattle.std.specs.Prelude.{◌≡◌, ◌+◌, ◌≤◌, length};
ghost use Rattle.std.proofs.lemmas.List.Edits.{sets};
ghost use Rattle.session.specs.Session.{link_of};
ghost use Rattle.gate.specs.Offer.{outcome, offer_of};
ghost use Rattle.test_drive.specs.Drive.{location_number, watch_bytes, base_of, Drives};
ghost use Rattle.test_drive.specs.ScriptSteps.{span_of, answer_bytes};

use frame::Location;
use gate::{Answer, Handed, carry_out, decide};
use header::{Side, side_of};
use octets::{get8, get32, part, put};
use packet::rest_of;
use session::{Session, fresh_session};
use watch::Watch;

// Where the part that a packet names stands among the packet's bytes, and the packet's id.
#[derive(Clone, Copy)]
struct Span {
    start: usize,
    end: usize,
    id: u64,
}

fn location_number(p: Location) -> u64
    ensures { result ≡ location_number p }
{
    match p {
        Location::Nowhere => 0,
        Location::Piece => 1,
        Location::Buffer => 2,
    }
}

// All 0 where nothing is handed out.
fn span_of(handed: Handed) -> Span
    ensures { result ≡ span_of handed }
{
    match handed {
        None => Span {
            start: 0,
            end: 0,
            id: 0,
        },
        Some((h, p)) => {
            let named = rest_of(p);
            Span {
                start: h.size.wrapping_add(named.start),
                end: h.size.wrapping_add(named.end),
                id: h.id,
            }
        }
    }
}

// Lays the record of a call.
fn put_record(out: &mut [u8], at: usize, a: &Answer)
    requires { at + 26 ≤ length out.old }
    ensures { out.new ≡ sets out.old at (answer_bytes a.now) }
{
    let data = span_of(a.handed);
    let r = &mut out[at..at + 26];
    put(r, 0, 1, a.number as u64);
    put(r, 1, 1, location_number(a.location));
    put(r, 2, 4, a.taken as u64);
    put(r, 6, 4, a.size as u64);
    put(r, 10, 4, data.start as u64);
    put(r, 14, 4, data.end as u64);
    put(r, 18, 8, data.id);
}

// Lays a watch: for each IN row its breaks (2), its last gap (8) and the id that it expects (8).
fn put_watch(out: &mut [u8], w: &Watch)
    ensures { out.new ≡ sets out.old 0 (watch_bytes w.now) }
{
    for (i, row) in w.rows.iter().enumerate() {
        put(out, i * 18, 2, row.breaks as u64);
        put(out, i * 18 + 2, 8, row.gap);
        put(out, i * 18 + 10, 8, row.expected);
    }
}

// Where a side's half of the holding buffer starts.
fn base_of(from: Side, half: usize) -> usize
    ensures { result ≡ base_of from half }
{
    match from {
        Side::Guest => 0,
        Side::Host => half,
    }
}

// A way to make a reader call on a session.
pub trait Caller {
    fn call(s: &mut Session, from: Side, hold: &mut [u8], piece: &[u8]) -> Answer
        ensures { outcome (link_of from s.old) (record { session = s.new; answer = result }) piece.now hold.new ≡ offer_of from s.old hold.old piece.now };
}

// Makes a reader call for each item of the script, as far as the script and the output go, and tells how many. An item
// is a byte for the sender (0 guest, else host), four bytes for the size of the piece, and the piece. The guest's bytes
// are held in the first half of `holds`, the host's in the second. Each call has 26 bytes of the output: number (1),
// location (1: 0 nowhere, 1 piece, 2 buffer), taken (4), size (4), where the data starts and ends among the packet's
// bytes (4, 4), id (8). Behind the last of them is laid the watch after all calls, as far as the output goes.
pub fn drive<C: Caller>(script: &[u8], holds: &mut [u8], out: &mut [u8]) -> usize
    ensures { Drives script.now holds.old out.old holds.new out.new result }
{
    let mut s = fresh_session();
    let mut at: usize = 0;
    let room = out.len() / 26;
    let half = holds.len() / 2;
    for k in 0..room {
        let rest = &script[at..];
        let size = 5 + get32(rest, 1) as usize;
        if rest.len() < size {
            put_watch(&mut out[k * 26..], &s.watch);
            return k;
        }
        let from = side_of(get8(rest, 0));
        let base = base_of(from, half);
        let hold = &mut holds[base..base + half];
        let answer = C::call(&mut s, from, hold, part(rest, 5, size));
        put_record(out, k * 26, &answer);
        at += size;
    }
    put_watch(&mut out[room * 26..], &s.watch);
    room
}

// A call is decided, and what the decision says is done in place.
struct InPlace;

impl Caller for InPlace {
    fn call(s: &mut Session, from: Side, hold: &mut [u8], piece: &[u8]) -> Answer {
        let d = decide(s, from, hold, piece);
        carry_out(s, from, &d, piece, hold);
        d.answer
    }
}

// Makes the calls of a script in place.
pub fn test_drive(script: &[u8], holds: &mut [u8], out: &mut [u8]) -> usize
    ensures { Drives script.now holds.old out.old holds.new out.new result }
{
    drive::<InPlace>(script, holds, out)
}
