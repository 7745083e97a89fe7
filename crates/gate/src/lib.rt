// The gate: a reader that is offered pieces of what each end sends, and a writer, over one session.
#![tactic(auto)]

ghost use Rattle.std.specs.Prelude.{◌≡◌, ◌++◌, ◌≤◌, ℕ, List, length, take, cond};
ghost use Rattle.header.specs.declared.Side.{Side};
ghost use Rattle.header.specs.Link.{shared_set};
ghost use Rattle.header.specs.Header.{hold_size};
ghost use Rattle.header.specs.Refusal.{number_in};
ghost use Rattle.packet.specs.Packet.{content_of};
ghost use Rattle.frame.specs.Frame.{bytes_at, Cuts};
ghost use Rattle.session.specs.Session.{link_of, held_in};
ghost use Rattle.gate.specs.Offer.{is_waiting, held_whole, barred, offer_of, outcome, body_in, data_in};
ghost use Rattle.gate.specs.Decide.{ended_with, passed_with, rows_handed, rows_in, session_after, Decides};
ghost use Rattle.gate.specs.Ready.{Ready};
ghost use Rattle.gate.specs.Write.{shut, WritesBy};

use checks::{Change, rule};
use decoder::read_behind;
use device::{Rows, start_rows};
use encoder::Written;
use events::{announced, case_of};
use frame::{Cut, Location, complete, cut_of, ends_within, lend, location_of};
use header::{HOLD_SIZE, Header, Link, Refusal, Side, own_hello_passed};
use octets::{get, lay, part};
use packet::{Packet, is_hello, part_of, rest_of};
use session::{Session, held_in, hold_to, link_to};

// What is handed out: nothing, or the packet that passed as its own reading.
pub type Handed = Option<(Header, Packet)>;

// A reader call's number; the bytes that it took of its piece; where the packet lies, or the header that it refused, and its size; and
// what it hands out.
#[derive(Clone, Copy)]
pub struct Answer {
    // a number, as the rules have it: the theorems of the reader speak of it, and hosts get it
    pub number: u8,
    pub taken: usize,
    pub location: Location,
    pub size: usize,
    pub handed: Handed,
}

// The session after a reader call, and the call's answer.
#[derive(Clone, Copy)]
pub struct Offered {
    pub session: Session,
    pub answer: Answer,
}

// A call decided: its answer, the bytes held after it, whether the session is stopped then, and the change that its packet makes.
#[derive(Clone, Copy)]
pub struct Decided {
    pub answer: Answer,
    pub held: usize,
    pub stopped: bool,
    pub change: Change,
}

// The sender's hello has passed and the other's has not.
fn is_waiting(l: Link) -> bool
    ensures { result ≡ is_waiting l }
{
    own_hello_passed(l) & !(l.guest.is_some() & l.host.is_some())
}

// 43, 3 or 2 where one holds, in that order.
fn check_state(unfit: bool, stopped: bool, waiting: bool) -> Result<(), Refusal>
    ensures { number_in result ≡ cond unfit 43 (cond stopped 3 (cond waiting 2 0)) }
{
    if unfit {
        return Err(Refusal::Unfit);
    }
    if stopped {
        return Err(Refusal::Stopped);
    }
    if waiting {
        return Err(Refusal::Waiting);
    }
    Ok(())
}

// 41, 43, 3 or 2 where one holds, in that order. Given are the size of the holding buffer, and whether the held bytes are a whole packet
// already, or a header that is refused.
#[tactic(auto, unfolding(crate::specs::Offer::barred))]
fn admit(s: &Session, l: Link, room: usize, whole: bool) -> Result<(), Refusal>
    ensures { (from : Side) (hold : List ℕ) → l ≡ link_of from s.now → room ≡ length hold → whole ≡ held_whole from s.now hold → number_in result ≡ barred from s.now hold }
{
    let is_short = room < HOLD_SIZE;
    if is_short {
        return Err(Refusal::HoldTooShort);
    }
    check_state(s.is_unfit() | whole, s.head.stopped, is_waiting(l))
}

// A call by which no packet passes.
fn ended(
    number: u8,
    taken: usize,
    location: Location,
    size: usize,
    held: usize,
    stopped: bool,
) -> Decided
    ensures { result ≡ ended_with number taken location size held stopped }
{
    let answer = Answer {
        number,
        taken,
        location,
        size,
        handed: None,
    };
    Decided {
        answer,
        held,
        stopped,
        change: Change::NoChange,
    }
}

// A call by which a packet passes.
fn passed(
    taken: usize,
    location: Location,
    size: usize,
    g: Header,
    p: Packet,
    stopped: bool,
    change: Change,
) -> Decided
    ensures { result ≡ passed_with taken location size g p stopped change }
{
    let answer = Answer {
        number: 0,
        taken,
        location,
        size,
        handed: Some((g, p)),
    };
    Decided {
        answer,
        held: 0,
        stopped,
        change,
    }
}

// The packet is whole: it is completed, read and ruled on.
fn take_packet(
    s: &Session,
    from: Side,
    l: Link,
    held: usize,
    kind: u32,
    head: usize,
    size: usize,
    hold: &mut [u8],
    piece: &[u8],
) -> Decided
    requires { (size ≤ hold_size) × (l ≡ link_of from s.now) × (held ≡ held_in from s.now.head) × Ready from s.now hold.old × Cuts l (take held hold.old ++ piece.now) kind head size }
    ensures { Decides from s.now result hold.old piece.now hold.new }
{
    let taken = complete(hold, held, piece, size);
    let location = location_of(held);
    let bytes = lend(location, size, piece, hold);
    let header = Header {
        kind,
        length: size.saturating_sub(head) as u32,
        id: get(bytes, 8, head.saturating_sub(8)),
        size: head,
    };
    let body = part(bytes, head, bytes.len());
    let stopped = s.head.stopped;
    match read_behind(l, header, body) {
        Err(r) => ended(r.number(), taken, location, size, 0, stopped | (kind == 0)),
        Ok((g, p)) => {
            match rule(s.head, &s.rows, &s.requests, case_of(from, g.id, p, body)) {
                Ok(change) => passed(taken, location, size, g, p, stopped, change),
                Err(r) => ended(r.number(), taken, location, size, 0, stopped),
            }
        }
    }
}

// Decides a call over a session, which is lent. The held bytes stand at the front of hold.
pub fn decide(s: &Session, from: Side, hold: &mut [u8], piece: &[u8]) -> Decided
    ensures { Decides from s.now result hold.old piece.now hold.new }
{
    let l = link_to(s.head, from);
    let held = held_in(s.head, from);
    let stopped = s.head.stopped;
    let begun = part(hold, 0, held);
    let cut = cut_of(l, begun, piece);
    let whole = ends_within(cut, begun.len());
    if let Err(r) = admit(s, l, hold.len(), whole) {
        return ended(r.number(), 0, Location::Nowhere, 0, held, stopped);
    }
    match cut {
        Cut::More => {
            let taken = piece.len();
            lay(hold, held, piece);
            ended(1, taken, Location::Nowhere, 0, held + taken, stopped)
        }
        Cut::BadHeader(r, size) => {
            let taken = complete(hold, held, piece, size);
            ended(r.number(), taken, location_of(held), size, 0, true)
        }
        Cut::WholePacket(kind, head, size) => {
            take_packet(s, from, l, held, kind, head, size, hold, piece)
        }
    }
}

// The rows that a packet which is handed out announces.
pub fn rows_handed(handed: Handed, body: &[u8]) -> Rows
    ensures { (from : Side) (caps id : ℕ) → result ≡ rows_handed from caps id handed body.now }
{
    match handed {
        None => start_rows(),
        Some((_, p)) => announced(p, body),
    }
}

// Does to the session over which a call was decided what the decision says.
pub fn carry_out(s: &mut Session, from: Side, d: &Decided, piece: &[u8], hold: &[u8])
    ensures { s.new ≡ session_after from s.old d.now (rows_in from s.old d.now.answer.handed (bytes_at d.now.answer.location d.now.answer.size piece.now hold.now)) }
{
    let new = rows_handed(d.answer.handed, body_of(d.answer, piece, hold));
    s.head = hold_to(s.head, from, d.held, d.stopped);
    s.apply(from, d.change, &new);
}

// A call on a session in place. It is a function of its own, so that `offer` copies the session in and out and no more.
#[inline(never)]
fn call(s: &mut Session, from: Side, hold: &mut [u8], piece: &[u8]) -> Answer
    ensures { outcome (link_of from s.old) (record { session = s.new; answer = result }) piece.now hold.new ≡ offer_of from s.old hold.old piece.now }
{
    let d = decide(s, from, hold, piece);
    carry_out(s, from, &d, piece, hold);
    d.answer
}

// Offers a piece of what a side sends: the core, which takes and returns the session. The held bytes stand at the front of hold.
pub fn offer(s: Session, from: Side, hold: &mut [u8], piece: &[u8]) -> Offered
    ensures { outcome (link_of from s) result piece.now hold.new ≡ offer_of from s hold.old piece.now }
{
    let mut session = s;
    let answer = call(&mut session, from, hold, piece);
    Offered { session, answer }
}

// The bytes of the packet, or of the header that was refused, where they lie when the call is over.
pub fn bytes_of<'a>(a: Answer, piece: &'a [u8], hold: &'a [u8]) -> &'a [u8]
    ensures { result.now ≡ bytes_at a.location a.size piece.now hold.now }
{
    lend(a.location, a.size, piece, hold)
}

// The body of the packet that is handed out, and nothing where none is.
pub fn body_of<'a>(a: Answer, piece: &'a [u8], hold: &'a [u8]) -> &'a [u8]
    ensures { result.now ≡ body_in a.handed (bytes_at a.location a.size piece.now hold.now) }
{
    let bytes = bytes_of(a, piece, hold);
    match a.handed {
        None => part(bytes, 0, 0),
        Some((h, _)) => part(bytes, h.size, bytes.len()),
    }
}

// What follows the fields of the packet that is handed out: its data, a string, or a hello's words; nothing where none is.
pub fn data_of<'a>(a: Answer, piece: &'a [u8], hold: &'a [u8]) -> &'a [u8]
    ensures { result.now ≡ data_in a.handed (bytes_at a.location a.size piece.now hold.now) }
{
    let body = body_of(a, piece, hold);
    match a.handed {
        None => body,
        Some((_, p)) => part_of(body, rest_of(p)),
    }
}

// 43, 3 or 2 where one holds for a packet to be written, in that order.
#[tactic(auto, unfolding(crate::specs::Write::shut))]
fn admit_writing(s: &Session, from: Side, hello: bool) -> Result<(), Refusal>
    ensures { number_in result ≡ shut from s.now hello }
{
    check_state(
        s.is_unfit(),
        s.head.stopped,
        is_waiting(link_to(s.head, from)) & !hello,
    )
}

// Writes a packet of a side, whose parts lie in body, at the front of out; where the number is not 0, out stays as it is.
pub fn write(s: Session, from: Side, id: u64, p: Packet, body: &[u8], out: &mut [u8]) -> Written
    ensures { WritesBy from s (content_of (shared_set (link_of from s)) id p body.now) out.old result out.new }
{
    if let Err(r) = admit_writing(&s, from, is_hello(p)) {
        return Written {
            number: r.number(),
            size: 0,
        };
    }
    encoder::write(link_to(s.head, from), id, p, body, out)
}
