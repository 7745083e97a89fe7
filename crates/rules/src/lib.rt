// The wire checks 21 to 24 and 13 of one packet with its body: what each kind's rules say of its fields, and the
// number.
#![tactic(auto)]

ghost use Rattle.std.specs.Prelude.{◌≡◌, List, cond, not, ◌&&◌, ◌||◌, true, false, ℕ, ◌≤◌, ◌<◌, ◌/◌, ◌^◌, length, leb, eqb, is_some};
ghost use Rattle.octets.specs.Little.{le};
ghost use Rattle.octets.specs.Bits.{has_bit};
ghost use Rattle.header.specs.declared.Side.{Side};
ghost use Rattle.header.specs.Link.{shared_set};
ghost use Rattle.header.specs.Refusal.{number_of, number_in};
ghost use Rattle.kinds.specs.Number.{onward, address_ok, zero_at, in_order, wire_number};
ghost use Rattle.packet.specs.declared.Packet.{Packet};
ghost use Rattle.packet.specs.declared.Packet.TheVariants as packets;
ghost use Rattle.packet.specs.Packet.{content_of};
ghost use Rattle.rules.specs.Findings.{Finds, findings, missized, no_id, type_ok, type_fault};

use endpoint::{Endpoint, is_address, is_in};
use header::{Link, Refusal, Side, is_guest, shared_set};
use kinds::{is_shared, may_send};
use octets::{get8, get32, has_bit};
use packet::{
    BufferedBulk, Bulk, Connect, Control, EndpointTable, Filter, Hello, InterfaceTable, Interrupt,
    Iso, Packet, part_of, table_size,
};

// What the checks find of one packet under a shared set.
#[derive(Clone, Copy)]
struct Findings {
    // its kind's place in the table
    slot: usize,
    // a field is there that the shared set leaves out
    surplus: bool,
    // the body has the size that its kind and its fields say
    sized: bool,
    // where the first field that breaks its rule starts in the body, 65,535 for the id
    fault: Option<u16>,
    // a hello offers bit 0 without bit 4
    alone: bool,
}

// The place of a field that breaks its rule, else what comes after it.
fn checked(ok: bool, place: u16, next: Option<u16>) -> Option<u16>
    ensures { result ≡ cond ok next (Some place) }
{
    if ok { next } else { Some(place) }
}

// "Id is 0 in kinds .."
fn zero_id(id: u64) -> Option<u16>
    ensures { result ≡ no_id id }
{
    checked(id == 0, 65535, None)
}

// An endpoint of either direction.
fn endpoint_at(endpoint: Endpoint, place: u16, next: Option<u16>) -> Option<u16>
    ensures { result ≡ cond (address_ok endpoint.0) next (Some place) }
{
    checked(is_address(endpoint), place, next)
}

// An endpoint that has to be IN.
fn in_at(endpoint: Endpoint, place: u16, next: Option<u16>) -> Option<u16>
    ensures { result ≡ cond (address_ok endpoint.0 && eqb (endpoint.0 / 128) 1) next (Some place) }
{
    checked(is_address(endpoint) & is_in(endpoint), place, next)
}

// The endpoint's direction is that of the sender's data: OUT for the guest, IN for the host.
fn is_onward(from: Side, endpoint: Endpoint) -> bool
    ensures { result ≡ onward from endpoint.0 }
{
    let direction = endpoint.0 >> 7;
    match from {
        Side::Guest => direction == 0,
        Side::Host => direction == 1,
    }
}

// The data that follows where it goes by the endpoint's direction.
fn onward_data(from: Side, endpoint: Endpoint, length: u32) -> u32
    ensures { result ≡ cond (onward from endpoint.0) length 0 }
{
    if is_onward(from, endpoint) { length } else { 0 }
}

// The place of the first zero byte, the length where there is none.
fn zero_at(s: &[u8]) -> usize
    ensures { (result ≡ zero_at s.now) × (result ≤ length s.now) }
{
    s.iter().position(|b| *b == 0).unwrap_or(s.len())
}

// The type of row i may be t.
fn is_type(i: usize, t: u8) -> bool
    ensures { result ≡ type_ok i t }
{
    if i % 16 == 0 {
        t == 0
    } else {
        (t <= 3) | (t == 255)
    }
}

// The first of the 32 endpoint types that is none, else what comes after them.
fn type_at(rows: &[u8], next: Option<u16>) -> Option<u16>
    ensures { result ≡ type_fault rows.now 32 0 next }
{
    for i in 0..32 {
        if !is_type(i, get8(rows, i)) {
            return Some(i as u16);
        }
    }
    next
}

// A kind with fields of numbers alone.
fn plain(slot: usize, fault: Option<u16>) -> Findings
    ensures { result ≡ findings slot false true fault false }
{
    judged(slot, true, fault)
}

// A kind whose size is judged.
fn judged(slot: usize, sized: bool, fault: Option<u16>) -> Findings
    ensures { result ≡ findings slot false sized fault false }
{
    Findings {
        slot,
        surplus: false,
        sized,
        fault,
        alone: false,
    }
}

// 13: a hello's first word has bit 0 without bit 4.
fn offers_streams_alone(words: &[u8]) -> bool
    ensures { result ≡ (has_bit (le 4 words.now 0) 0 && not (has_bit (le 4 words.now 0) 4)) }
{
    let word = get32(words, 0);
    has_bit(word, 0) & !has_bit(word, 4)
}

fn hello(id: u64, h: Hello, body: &[u8]) -> Findings
    ensures { (from : Side) (caps : ℕ) → Finds from caps id (packets.Hello h) body.now result }
{
    let version = part_of(body, h.version);
    let words = part_of(body, h.words);
    let n = words.len();
    Findings {
        slot: 0,
        surplus: false,
        sized: (version.len() == 64) & ((n <= 32) & (n % 4 == 0)),
        fault: checked(zero_at(version) < 64, 0, zero_id(id)),
        alone: offers_streams_alone(words),
    }
}

fn connect(caps: u32, id: u64, c: Connect) -> Findings
    ensures { (from : Side) (body : List ℕ) → Finds from caps id (packets.Connect c) body result }
{
    let speed = c.speed;
    let given = c.version.is_some();
    let shared = has_bit(caps, 1);
    let last = checked(given | !shared, 8, zero_id(id));
    Findings {
        slot: 1,
        surplus: given & !shared,
        sized: true,
        fault: checked((speed <= 3) | (speed == 255), 0, last),
        alone: false,
    }
}

fn interfaces(id: u64, t: InterfaceTable, body: &[u8]) -> Findings
    ensures { (from : Side) (caps : ℕ) → Finds from caps id (packets.InterfaceTable t) body.now result }
{
    judged(
        4,
        part_of(body, t.rows).len() == 128,
        checked(t.count <= 32, 0, zero_id(id)),
    )
}

fn endpoints(caps: u32, id: u64, t: EndpointTable, body: &[u8]) -> Findings
    ensures { (from : Side) → Finds from caps id (packets.EndpointTable t) body.now result }
{
    let packets = t.maxpacket;
    let streams = t.maxstreams;
    let rows = part_of(body, t.rows);
    let four = has_bit(caps, 4);
    let both = four & has_bit(caps, 0);
    let last = checked(
        packets | !four,
        96,
        checked(streams | !both, 160, zero_id(id)),
    );
    Findings {
        slot: 5,
        surplus: (packets & !four) | (streams & !both),
        sized: rows.len() == table_size(packets, streams),
        fault: type_at(rows, last),
        alone: false,
    }
}

fn filter(id: u64, f: Filter, body: &[u8]) -> Findings
    ensures { (from : Side) (caps : ℕ) → Finds from caps id (packets.Filter f) body.now result }
{
    let text = part_of(body, f.string);
    let n = text.len();
    judged(23, 1 <= n, checked(zero_at(text) + 1 == n, 0, zero_id(id)))
}

fn control(from: Side, id: u64, c: Control, body: &[u8]) -> Findings
    ensures { (caps : ℕ) → Finds from caps id (packets.Control c) body.now result }
{
    let endpoint = c.endpoint;
    let last = checked(c.requesttype >> 7 == endpoint.0 >> 7, 2, None);
    judged(
        28,
        part_of(body, c.payload).len() == onward_data(from, endpoint, c.length as u32) as usize,
        endpoint_at(endpoint, 0, last),
    )
}

fn bulk(from: Side, caps: u32, id: u64, b: Bulk, body: &[u8]) -> Findings
    ensures { Finds from caps id (packets.Bulk b) body.now result }
{
    let endpoint = b.endpoint;
    let length = b.length;
    let last = checked(has_bit(caps, 0) | (b.stream == 0), 4, None);
    Findings {
        slot: 29,
        surplus: !has_bit(caps, 6) & (65535 < length),
        sized: part_of(body, b.payload).len() == onward_data(from, endpoint, length) as usize,
        fault: endpoint_at(endpoint, 0, last),
        alone: false,
    }
}

fn iso(from: Side, id: u64, p: Iso, body: &[u8]) -> Findings
    ensures { (caps : ℕ) → Finds from caps id (packets.Iso p) body.now result }
{
    let endpoint = p.endpoint;
    let ok = is_address(endpoint) & is_onward(from, endpoint);
    judged(
        30,
        part_of(body, p.payload).len() == p.length as usize,
        checked(ok, 0, None),
    )
}

fn interrupt(from: Side, id: u64, p: Interrupt, body: &[u8]) -> Findings
    ensures { (caps : ℕ) → Finds from caps id (packets.Interrupt p) body.now result }
{
    let endpoint = p.endpoint;
    let ok = is_address(endpoint) & (!is_guest(from) | is_onward(from, endpoint));
    judged(
        31,
        part_of(body, p.payload).len() == onward_data(from, endpoint, p.length as u32) as usize,
        checked(ok, 0, None),
    )
}

fn buffered_bulk(id: u64, p: BufferedBulk, body: &[u8]) -> Findings
    ensures { (from : Side) (caps : ℕ) → Finds from caps id (packets.BufferedBulk p) body.now result }
{
    judged(
        32,
        part_of(body, p.payload).len() == p.length as usize,
        in_at(p.endpoint, 8, None),
    )
}

// What the rules of each kind find, as document 01 has them.
fn findings_of(from: Side, caps: u32, id: u64, p: Packet, body: &[u8]) -> Findings
    ensures { Finds from caps id p body.now result }
{
    match p {
        Packet::Hello(x) => hello(id, x, body),
        Packet::Connect(x) => connect(caps, id, x),
        Packet::Disconnect => plain(2, zero_id(id)),
        Packet::Reset => plain(3, None),
        Packet::InterfaceTable(x) => interfaces(id, x, body),
        Packet::EndpointTable(x) => endpoints(caps, id, x, body),
        Packet::SetConfiguration(_) => plain(6, None),
        Packet::GetConfiguration => plain(7, None),
        Packet::ConfigurationStatus(_) => plain(8, None),
        Packet::SetAlt(_) => plain(9, None),
        Packet::GetAlt(_) => plain(10, None),
        Packet::AltStatus(_) => plain(11, None),
        Packet::StartIso(x) => plain(12, endpoint_at(x.endpoint, 0, None)),
        Packet::StopIso(x) => plain(13, endpoint_at(x.endpoint, 0, None)),
        Packet::IsoStatus(x) => plain(14, endpoint_at(x.endpoint, 1, None)),
        Packet::StartInterrupt(x) => plain(15, in_at(x.endpoint, 0, None)),
        Packet::StopInterrupt(x) => plain(16, in_at(x.endpoint, 0, None)),
        Packet::InterruptStatus(x) => plain(17, endpoint_at(x.endpoint, 1, None)),
        Packet::AllocStreams(x) => plain(18, checked(x.mask != 0, 0, None)),
        Packet::FreeStreams(x) => plain(19, checked(x.mask != 0, 0, None)),
        Packet::StreamsStatus(_) => plain(20, None),
        Packet::Cancel => plain(21, None),
        Packet::FilterReject => plain(22, zero_id(id)),
        Packet::Filter(x) => filter(id, x, body),
        Packet::DisconnectAck => plain(24, zero_id(id)),
        Packet::StartBulkReceiving(x) => plain(25, in_at(x.endpoint, 8, None)),
        Packet::StopBulkReceiving(x) => plain(26, in_at(x.endpoint, 4, None)),
        Packet::BulkReceivingStatus(x) => plain(27, in_at(x.endpoint, 4, None)),
        Packet::Control(x) => control(from, id, x, body),
        Packet::Bulk(x) => bulk(from, caps, id, x, body),
        Packet::Iso(x) => iso(from, id, x, body),
        Packet::Interrupt(x) => interrupt(from, id, x, body),
        Packet::BufferedBulk(x) => buffered_bulk(id, x, body),
    }
}

// 22 for an id: "a non-hello's id over 32 bits without bit 5".
fn is_wide(slot: usize, caps: u32, id: u64) -> bool
    ensures { result ≡ (not (eqb slot 0) && not (has_bit caps 5) && leb 4294967296 id) }
{
    (slot != 0) & !has_bit(caps, 5) & (4294967296 <= id)
}

// The first of 21 to 24 that holds, then 13.
fn in_order(
    missent: bool,
    unshared: bool,
    missized: bool,
    broken: bool,
    alone: bool,
) -> Result<(), Refusal>
    ensures { number_in result ≡ in_order missent unshared missized broken alone }
{
    if missent {
        return Err(Refusal::WrongSender);
    }
    if unshared {
        return Err(Refusal::NotShared);
    }
    if missized {
        return Err(Refusal::WrongSize);
    }
    if broken {
        return Err(Refusal::BadField);
    }
    if alone {
        return Err(Refusal::StreamsAlone);
    }
    Ok(())
}

// Why a body that does not have its kind's size is refused: 23, or one of 21 and 22, which the kind and the id
// decide. It also says that the id is below 2 to the 64th.
pub fn wrong_size(l: Link, slot: usize, id: u64) -> Refusal
    ensures { (number_of result ≡ missized l slot id) × (id < 256 ^ 8) }
{
    if !may_send(slot, l.sender) {
        return Refusal::WrongSender;
    }
    let caps = shared_set(l);
    if !is_shared(slot, caps) | is_wide(slot, caps, id) {
        return Refusal::NotShared;
    }
    Refusal::WrongSize
}

// The check of a packet of which that was found.
fn check_found(l: Link, id: u64, f: Findings) -> Result<(), Refusal>
    ensures { (p : Packet) (body : List ℕ) → Finds l.sender (shared_set l) id p body f → number_in result ≡ wire_number l (content_of (shared_set l) id p body) }
{
    let caps = shared_set(l);
    in_order(
        !may_send(f.slot, l.sender),
        !is_shared(f.slot, caps) | f.surplus | is_wide(f.slot, caps, id),
        !f.sized,
        f.fault.is_some(),
        f.alone,
    )
}

// What `check_wire` says of each kind with data, whose packet is known to be of that kind.
pub fn check_control(l: Link, id: u64, c: Control, body: &[u8]) -> Result<(), Refusal>
    ensures { number_in result ≡ wire_number l (content_of (shared_set l) id (packets.Control c) body.now) }
{
    check_found(l, id, control(l.sender, id, c, body))
}

pub fn check_bulk(l: Link, id: u64, b: Bulk, body: &[u8]) -> Result<(), Refusal>
    ensures { number_in result ≡ wire_number l (content_of (shared_set l) id (packets.Bulk b) body.now) }
{
    check_found(l, id, bulk(l.sender, shared_set(l), id, b, body))
}

pub fn check_iso(l: Link, id: u64, p: Iso, body: &[u8]) -> Result<(), Refusal>
    ensures { number_in result ≡ wire_number l (content_of (shared_set l) id (packets.Iso p) body.now) }
{
    check_found(l, id, iso(l.sender, id, p, body))
}

pub fn check_interrupt(l: Link, id: u64, p: Interrupt, body: &[u8]) -> Result<(), Refusal>
    ensures { number_in result ≡ wire_number l (content_of (shared_set l) id (packets.Interrupt p) body.now) }
{
    check_found(l, id, interrupt(l.sender, id, p, body))
}

pub fn check_buffered(l: Link, id: u64, p: BufferedBulk, body: &[u8]) -> Result<(), Refusal>
    ensures { number_in result ≡ wire_number l (content_of (shared_set l) id (packets.BufferedBulk p) body.now) }
{
    check_found(l, id, buffered_bulk(id, p, body))
}

// The wire checks of a packet with its body, for reader and writer alike; a `Packet` is of a known kind, so 20 is
// not among them.
pub fn check_wire(l: Link, id: u64, p: Packet, body: &[u8]) -> Result<(), Refusal>
    ensures { number_in result ≡ wire_number l (content_of (shared_set l) id p body.now) }
{
    check_found(l, id, findings_of(l.sender, shared_set(l), id, p, body))
}
