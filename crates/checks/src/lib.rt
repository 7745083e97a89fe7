// The session checks 25 to 34: a packet's case is ruled on over the session's head, rows and requests.
#![tactic(auto)]

ghost use Rattle.std.specs.Prelude.{◌≡◌, cond};
ghost use Rattle.requests.specs.Requests.{Id, lowest};
ghost use Rattle.checks.specs.Checks.{is_begun, is_done, mistyped_by};
ghost use Rattle.checks.specs.Change.{move_by};
ghost use Rattle.checks.specs.Ruled.{connected_by, introduced_by, asked_by, unmatched, scope_to, is_answered, replied_in, streamed_by, ruled};

use device::{Head, Introduction, Rows, Scope};
use endpoint::Endpoint;
use events::{Case, Reply, Typed, is_stall, is_success};
use header::Refusal;
use requests::{Request, Requests, Slot};

// What a packet that passes does.
#[derive(Clone, Copy)]
pub enum Change {
    NoChange,
    // data of the host on a stream, with its id
    Seen(Endpoint, u64),
    // a hello with its first capability word
    Hello(u32),
    Connect,
    Interfaces,
    Endpoints,
    Disconnect,
    Reset,
    Acknowledge,
    // a request takes a place
    Take(usize, Request),
    // and opens the stream of its row
    TakeAndOpen(usize, Request, Typed),
    // a reply frees a place, if it has one; what it does to the stream of its row; the rows whose data requests and
    // streams end with it
    Release(Option<usize>, Typed, StreamMove, Scope),
}

// What a status does to the stream of its row: it closes it, opens it, or closes it by a stall.
#[derive(Clone, Copy)]
pub enum StreamMove {
    Closes,
    Opens,
    Stalls,
}

// Named as its definition is.
fn is_begun(i: Introduction) -> bool
    ensures { result ≡ is_begun i }
{
    matches!(i, Introduction::One | Introduction::Two)
}

fn is_done(i: Introduction) -> bool
    ensures { result ≡ is_done i }
{
    matches!(i, Introduction::Two)
}

// 25
fn with_device(h: &Head) -> Result<(), Refusal>
    ensures { result ≡ cond h.now.present (Ok tt) (Err Refusal.NoDevice) }
{
    if h.present {
        Ok(())
    } else {
        Err(Refusal::NoDevice)
    }
}

// 27
fn without_ack(h: &Head) -> Result<(), Refusal>
    ensures { result ≡ cond h.now.owed (Err Refusal.AckOwed) (Ok tt) }
{
    if h.owed {
        Err(Refusal::AckOwed)
    } else {
        Ok(())
    }
}

// 27, 26
fn rule_connect(h: &Head) -> Result<Change, Refusal>
    ensures { result ≡ connected_by h.now }
{
    without_ack(h)?;
    if h.present | !is_done(h.introduction) {
        return Err(Refusal::OutOfOrder);
    }
    Ok(Change::Connect)
}

fn rule_interfaces(h: &Head) -> Result<Change, Refusal>
    ensures { result ≡ introduced_by h.now }
{
    without_ack(h)?;
    if !h.present & !is_begun(h.introduction) {
        return Err(Refusal::OutOfOrder);
    }
    Ok(Change::Interfaces)
}

// 28
fn is_mistyped(rows: &Rows, typed: Typed) -> bool
    ensures { result ≡ mistyped_by rows.now typed }
{
    match typed {
        Typed::Untyped => false,
        Typed::OfEndpoint(e, ty) => rows.type_of(e) != ty,
        Typed::OfMask(mask, ty) => rows.has_mistyped(mask, ty),
    }
}

// 28, 29, 31, 32
fn rule_request(
    rows: &Rows,
    requests: &Requests,
    q: Request,
    typed: Typed,
    starts: bool,
    transfer: bool,
) -> Result<Change, Refusal>
    ensures { result ≡ asked_by rows.now requests.now q typed starts transfer }
{
    if is_mistyped(rows, typed) {
        return Err(Refusal::WrongType);
    }
    if transfer && requests.is_settling() {
        return Err(Refusal::Settling);
    }
    if requests.find_id(q.id).is_some() {
        return Err(Refusal::IdInUse);
    }
    let i = requests.find_free().ok_or(Refusal::TableFull)?;
    if starts {
        Ok(Change::TakeAndOpen(i, q, typed))
    } else {
        Ok(Change::Take(i, q))
    }
}

// 33, where no request is answered
fn rule_unmatched(typed: Typed, alone: bool) -> Result<Change, Refusal>
    ensures { result ≡ unmatched typed alone }
{
    if alone {
        return Ok(Change::Release(None, typed, StreamMove::Stalls, Scope::NoRow));
    }
    Err(Refusal::NoSuchRequest)
}

// What else a reply to a request of this kind ends.
fn scope_to(r: Reply, kind: u8) -> Scope
    ensures { result ≡ scope_to r kind }
{
    if !is_success(r.status) {
        return Scope::NoRow;
    }
    match kind {
        6 => Scope::EveryRow,
        9 => Scope::OfInterface(r.told.target),
        _ => Scope::NoRow,
    }
}

// What a status does to the stream of its row, where it answers a start or not.
fn move_by(status: u8, start: bool) -> StreamMove
    ensures { result ≡ move_by status start }
{
    if is_stall(status) {
        return StreamMove::Stalls;
    }
    if is_success(status) & start {
        StreamMove::Opens
    } else {
        StreamMove::Closes
    }
}

// A reply answers a request of this kind and with this slot.
fn is_answered(r: Reply, kind: u8, slot: Slot) -> bool
    ensures { result ≡ is_answered r kind slot }
{
    let a = r.answers;
    ((kind == a.first) | (kind == a.second)) & (!a.targeted | (slot.target == r.told.target))
}

// 33, 34, by the request with the reply's id
fn rule_reply(requests: &Requests, r: Reply, typed: Typed, unasked: bool) -> Result<Change, Refusal>
    ensures { result ≡ replied_in requests.now r typed unasked (lowest requests.now (Id r.told.id)) }
{
    let alone = unasked & (r.told.id == 0) & is_stall(r.status);
    let Some(i) = requests.find_id(r.told.id) else {
        return rule_unmatched(typed, alone);
    };
    let kind = requests.kind_at(i);
    let slot = requests.slot_at(i);
    if !is_answered(r, kind, slot) {
        return rule_unmatched(typed, alone);
    }
    if slot.length < r.told.length {
        return Err(Refusal::ReplyTooLong);
    }
    let stream = move_by(r.status, kind == r.answers.first);
    Ok(Change::Release(Some(i), typed, stream, scope_to(r, kind)))
}

// 28 to 30, of data on a stream that does this where it passes
fn rule_stream(
    rows: &Rows,
    requests: &Requests,
    e: Endpoint,
    ty: u8,
    transfer: bool,
    c: Change,
) -> Result<Change, Refusal>
    ensures { result ≡ streamed_by rows.now requests.now e ty transfer c }
{
    if rows.type_of(e) != ty {
        return Err(Refusal::WrongType);
    }
    if transfer && requests.is_settling() {
        return Err(Refusal::Settling);
    }
    if !rows.is_streaming(e) {
        return Err(Refusal::StreamClosed);
    }
    Ok(c)
}

// Rules on a packet by its case.
#[tactic(auto, unfolding(crate::specs::Ruled::ruled))]
pub fn rule(h: Head, rows: &Rows, requests: &Requests, c: Case) -> Result<Change, Refusal>
    ensures { result ≡ ruled h rows.now requests.now c }
{
    match c {
        Case::Hello(word) => Ok(Change::Hello(word)),
        Case::Connect => rule_connect(&h),
        Case::Interfaces => rule_interfaces(&h),
        Case::Endpoints => {
            without_ack(&h)?;
            Ok(Change::Endpoints)
        }
        Case::Disconnect => {
            with_device(&h)?;
            Ok(Change::Disconnect)
        }
        Case::Reset => {
            with_device(&h)?;
            Ok(Change::Reset)
        }
        Case::Ack => {
            if h.owed {
                Ok(Change::Acknowledge)
            } else {
                Err(Refusal::OutOfOrder)
            }
        }
        Case::Cancel => {
            with_device(&h)?;
            Ok(Change::NoChange)
        }
        Case::Filter => Ok(Change::NoChange),
        Case::Asks(q, typed, starts, transfer) => {
            with_device(&h)?;
            rule_request(rows, requests, q, typed, starts, transfer)
        }
        Case::Answers(r, typed, unasked) => {
            with_device(&h)?;
            rule_reply(requests, r, typed, unasked)
        }
        Case::StreamsOut(e, ty, transfer) => {
            with_device(&h)?;
            rule_stream(rows, requests, e, ty, transfer, Change::NoChange)
        }
        Case::StreamsIn(e, ty, id) => {
            with_device(&h)?;
            rule_stream(rows, requests, e, ty, false, Change::Seen(e, id))
        }
    }
}
