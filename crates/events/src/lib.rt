// What a packet means to the session: its case, with what the session rules ask of a packet of its class and no more.
#![tactic(auto)]

ghost use Rattle.std.specs.Prelude.{◌≡◌, true, false, cond};
ghost use Rattle.header.specs.Link.{is_guest};
ghost use Rattle.kinds.specs.Codec.{layout};
ghost use Rattle.packet.specs.Packet.{in_part, columns_of, columns_in};
ghost use Rattle.events.specs.Event.{announced_in, Shows, Announces};
ghost use Rattle.events.specs.Status.{is_success, is_stall};
ghost use Rattle.events.specs.declared.Typed.TheVariants.{Untyped, OfEndpoint, OfMask};
ghost use Rattle.events.specs.declared.Case.TheVariants as cases;

use device::{Rows, start_rows};
use endpoint::{Endpoint, Row, is_in};
use header::{Side, is_guest};
use octets::get32;
use packet::{EndpointTable, Packet, endpoint_row, part_of};
use requests::{Answerable, Request};

// The rows that a packet is about, and the type that its kind wants them to have.
#[derive(Clone, Copy)]
pub enum Typed {
    Untyped,
    OfEndpoint(Endpoint, u8),
    OfMask(u32, u8),
}

// A reply: the request that it answers, as it tells it; which requests it can answer; its status.
#[derive(Clone, Copy)]
pub struct Reply {
    pub told: Request,
    pub answers: Answerable,
    pub status: u8,
}

// "0 is success and everything else an error"
pub fn is_success(status: u8) -> bool
    ensures { result ≡ is_success status }
{
    status == 0
}

// "those with status 4"
pub fn is_stall(status: u8) -> bool
    ensures { result ≡ is_stall status }
{
    status == 4
}

// What a packet is to the session.
#[derive(Clone, Copy)]
pub enum Case {
    // with its first capability word
    Hello(u32),
    Connect,
    Interfaces,
    Endpoints,
    Disconnect,
    Reset,
    Ack,
    Cancel,
    Filter,
    // a request: whether it opens a stream, and whether it is a transfer
    Asks(Request, Typed, bool, bool),
    // a reply: whether it may come unasked
    Answers(Reply, Typed, bool),
    // data on a stream of this type, from the guest: whether it is a transfer
    StreamsOut(Endpoint, u8, bool),
    // from the host: its id
    StreamsIn(Endpoint, u8, u64),
}

// A request about nothing, or about an interface.
fn asks_plainly(kind: u8, id: u64, target: u8) -> Case
    ensures { result ≡ cases.Asks (record { id = id; kind = kind; target = target; length = 0 }) Untyped false false }
{
    let request = Request {
        id,
        kind,
        target,
        length: 0,
    };
    Case::Asks(request, Typed::Untyped, false, false)
}

// A start or a stop of a stream of this type.
fn asks_stream(kind: u8, id: u64, e: Endpoint, ty: u8, starts: bool) -> Case
    ensures { result ≡ cases.Asks (record { id = id; kind = kind; target = e.0; length = 0 }) (OfEndpoint e ty) starts false }
{
    let request = Request {
        id,
        kind,
        target: e.0,
        length: 0,
    };
    Case::Asks(request, Typed::OfEndpoint(e, ty), starts, false)
}

// A request about a mask of rows of type bulk.
fn asks_mask(kind: u8, id: u64, mask: u32) -> Case
    ensures { result ≡ cases.Asks (record { id = id; kind = kind; target = 0; length = 0 }) (OfMask mask 2) false false }
{
    let request = Request {
        id,
        kind,
        target: 0,
        length: 0,
    };
    Case::Asks(request, Typed::OfMask(mask, 2), false, false)
}

// A reply to requests of two kinds, about nothing or an interface.
fn answers_plainly(
    kind: u8,
    id: u64,
    target: u8,
    status: u8,
    first: u8,
    second: u8,
    targeted: bool,
) -> Case
    ensures { result ≡ cases.Answers (record { told = record { id = id; kind = kind; target = target; length = 0 }; answers = record { first = first; second = second; targeted = targeted }; status = status }) Untyped false }
{
    let reply = Reply {
        told: Request {
            id,
            kind,
            target,
            length: 0,
        },
        answers: Answerable {
            first,
            second,
            targeted,
        },
        status,
    };
    Case::Answers(reply, Typed::Untyped, false)
}

// A status of a stream of this type, to a start or a stop.
fn reports_stream(kind: u8, id: u64, e: Endpoint, ty: u8, status: u8, start: u8, stop: u8) -> Case
    ensures { result ≡ cases.Answers (record { told = record { id = id; kind = kind; target = e.0; length = 0 }; answers = record { first = start; second = stop; targeted = true }; status = status }) (OfEndpoint e ty) true }
{
    let reply = Reply {
        told: Request {
            id,
            kind,
            target: e.0,
            length: 0,
        },
        answers: Answerable {
            first: start,
            second: stop,
            targeted: true,
        },
        status,
    };
    Case::Answers(reply, Typed::OfEndpoint(e, ty), true)
}

// Data that the guest sends is a request on an endpoint of this type; from the host it is the reply to one.
fn transfer(from: Side, kind: u8, id: u64, e: Endpoint, ty: u8, length: u32, status: u8) -> Case
    ensures { result ≡ cond (is_guest from) (cases.Asks (record { id = id; kind = kind; target = e.0; length = length }) (OfEndpoint e ty) false true) (cases.Answers (record { told = record { id = id; kind = kind; target = e.0; length = length }; answers = record { first = kind; second = kind; targeted = true }; status = status }) Untyped false) }
{
    let told = Request {
        id,
        kind,
        target: e.0,
        length,
    };
    if is_guest(from) {
        return Case::Asks(told, Typed::OfEndpoint(e, ty), false, true);
    }
    let answers = Answerable {
        first: kind,
        second: kind,
        targeted: true,
    };
    Case::Answers(
        Reply {
            told,
            answers,
            status,
        },
        Typed::Untyped,
        false,
    )
}

// What a packet with its body is to the session, whatever the shared set.
pub fn case_of(from: Side, id: u64, p: Packet, body: &[u8]) -> Case
    ensures { Shows from id p body.now result }
{
    match p {
        Packet::Hello(x) => Case::Hello(get32(part_of(body, x.words), 0)),
        Packet::Connect(_) => Case::Connect,
        Packet::Disconnect => Case::Disconnect,
        Packet::Reset => Case::Reset,
        Packet::InterfaceTable(_) => Case::Interfaces,
        Packet::EndpointTable(_) => Case::Endpoints,
        Packet::SetConfiguration(_) => asks_plainly(6, id, 0),
        Packet::GetConfiguration => asks_plainly(7, id, 0),
        Packet::ConfigurationStatus(x) => answers_plainly(8, id, 0, x.status, 6, 7, false),
        Packet::SetAlt(x) => asks_plainly(9, id, x.interface),
        Packet::GetAlt(x) => asks_plainly(10, id, x.interface),
        Packet::AltStatus(x) => answers_plainly(11, id, x.interface, x.status, 9, 10, true),
        Packet::StartIso(x) => asks_stream(12, id, x.endpoint, 1, true),
        Packet::StopIso(x) => asks_stream(13, id, x.endpoint, 1, false),
        Packet::IsoStatus(x) => reports_stream(14, id, x.endpoint, 1, x.status, 12, 13),
        Packet::StartInterrupt(x) => asks_stream(15, id, x.endpoint, 3, true),
        Packet::StopInterrupt(x) => asks_stream(16, id, x.endpoint, 3, false),
        Packet::InterruptStatus(x) => reports_stream(17, id, x.endpoint, 3, x.status, 15, 16),
        Packet::AllocStreams(x) => asks_mask(18, id, x.mask),
        Packet::FreeStreams(x) => asks_mask(19, id, x.mask),
        Packet::StreamsStatus(x) => answers_plainly(20, id, 0, x.status, 18, 19, false),
        Packet::Cancel => Case::Cancel,
        Packet::FilterReject => Case::Filter,
        Packet::Filter(_) => Case::Filter,
        Packet::DisconnectAck => Case::Ack,
        Packet::StartBulkReceiving(x) => asks_stream(25, id, x.endpoint, 2, true),
        Packet::StopBulkReceiving(x) => asks_stream(26, id, x.endpoint, 2, false),
        Packet::BulkReceivingStatus(x) => reports_stream(27, id, x.endpoint, 2, x.status, 25, 26),
        Packet::Control(x) => transfer(from, 100, id, x.endpoint, 0, u32::from(x.length), x.status),
        Packet::Bulk(x) => transfer(from, 101, id, x.endpoint, 2, x.length, x.status),
        Packet::Iso(x) => {
            if is_guest(from) {
                Case::StreamsOut(x.endpoint, 1, true)
            } else {
                Case::StreamsIn(x.endpoint, 1, id)
            }
        }
        Packet::Interrupt(x) => {
            if !is_guest(from) & is_in(x.endpoint) {
                Case::StreamsIn(x.endpoint, 3, id)
            } else {
                transfer(from, 103, id, x.endpoint, 3, u32::from(x.length), x.status)
            }
        }
        Packet::BufferedBulk(x) => Case::StreamsIn(x.endpoint, 2, id),
    }
}

// The rows that an endpoint table has: type and interface of each.
fn rows_of(body: &[u8], t: EndpointTable) -> Rows
    ensures { result ≡ announced_in (layout 5) (columns_in (columns_of t.maxpacket t.maxstreams) (layout 5) (in_part t.rows body.now)) }
{
    let mut out = start_rows();
    for i in 0..32 {
        let r = endpoint_row(body, t, Row(i as u8));
        out.types[i] = r.ty;
        out.interfaces[i] = r.interface;
    }
    out
}

// The rows that a packet announces: an endpoint table its own, any other those of the start.
pub fn announced(p: Packet, body: &[u8]) -> Rows
    ensures { Announces p body.now result }
{
    match p {
        Packet::EndpointTable(t) => rows_of(body, t),
        _ => start_rows(),
    }
}
