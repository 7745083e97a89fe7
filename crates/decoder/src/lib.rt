// Reading: the bytes of one whole packet to its number or its packet.
#![tactic(auto)]

ghost use Rattle.std.specs.Prelude.{◌≡◌, ◌≤◌, ◌<◌, ◌^◌, cond, length, MatchResult};
ghost use Rattle.octets.specs.Bits.{has_bit};
ghost use Rattle.octets.specs.Little.{le};
ghost use Rattle.header.specs.Link.{shared_set};
ghost use Rattle.kinds.specs.Table.{kind_at};
ghost use Rattle.kinds.specs.Content.{shared, size};
ghost use Rattle.decoder.specs.Reading.{told_behind, told, behind_of, read_of, carries};
ghost use Rattle.decoder.specs.Body.{Fits, ReadsBody, ReadsKind, bulk_count};

use endpoint::Endpoint;
use header::{Header, Link, Refusal, check_header, read_header, shared_set};
use kinds::fields_size;
use octets::{get8, get16, get32, has_bit};
use packet::{
    AllocStreams, AltStatus, BufferedBulk, Bulk, BulkReceivingStatus, ConfigurationStatus, Connect,
    Control, EndpointTable, Filter, FreeStreams, GetAlt, Hello, InterfaceTable, Interrupt,
    InterruptStatus, Iso, IsoStatus, Packet, Part, SetAlt, SetConfiguration, StartBulkReceiving,
    StartInterrupt, StartIso, StopBulkReceiving, StopInterrupt, StopIso, StreamsStatus,
};
use rules::{
    check_buffered, check_bulk, check_control, check_interrupt, check_iso, check_wire, wrong_size,
};

// The body from a place on.
fn after(body: &[u8], at: usize) -> Part
    ensures { result ≡ record { start = at; end = length body.now } }
{
    Part {
        start: at,
        end: body.len(),
    }
}

fn part_at(start: usize, end: usize) -> Part
    ensures { result ≡ record { start = start; end = end } }
{
    Part { start, end }
}

// "The bulk count is low + 65,536 times high, or low without bit 6."
fn bulk_count(caps: u32, body: &[u8]) -> u32
    ensures { (result ≡ bulk_count caps body.now) × (le 2 body.now 2 < 65536) }
{
    let low = get16(body, 2) as u32;
    if has_bit(caps, 6) {
        low + 65536 * get16(body, 8) as u32
    } else {
        low
    }
}

// The bytes of a bulk packet's fields, with the count's high half or without.
fn bulk_fields(caps: u32) -> usize
    ensures { result ≡ cond (has_bit caps 6) 10 8 }
{
    if has_bit(caps, 6) { 10 } else { 8 }
}

// Something may follow the fields of the kind, which is below 100.
fn has_rest(slot: usize) -> bool
    requires { slot < 28 }
    ensures { result ≡ carries (kind_at slot) }
{
    (slot == 0) | (slot == 23)
}

// A body whose fields are all there, read by its kind, which is below 100.
fn read_body(caps: u32, slot: usize, body: &[u8]) -> Packet
    requires { Fits caps slot body.now }
    ensures { ReadsBody caps slot body.now result }
{
    match slot {
        0 => Packet::Hello(Hello {
            version: part_at(0, 64),
            words: after(body, 64),
        }),
        1 => Packet::Connect(Connect {
            speed: get8(body, 0),
            class: get8(body, 1),
            subclass: get8(body, 2),
            protocol: get8(body, 3),
            vendor: get16(body, 4),
            product: get16(body, 6),
            version: has_bit(caps, 1).then_some(get16(body, 8)),
        }),
        2 => Packet::Disconnect,
        3 => Packet::Reset,
        4 => Packet::InterfaceTable(InterfaceTable {
            count: get32(body, 0),
            rows: part_at(4, 132),
        }),
        5 => {
            let packets = has_bit(caps, 4);
            let streams = packets & has_bit(caps, 0);
            Packet::EndpointTable(EndpointTable {
                rows: after(body, 0),
                maxpacket: packets,
                maxstreams: streams,
            })
        }
        6 => Packet::SetConfiguration(SetConfiguration {
            configuration: get8(body, 0),
        }),
        7 => Packet::GetConfiguration,
        8 => Packet::ConfigurationStatus(ConfigurationStatus {
            status: get8(body, 0),
            configuration: get8(body, 1),
        }),
        9 => Packet::SetAlt(SetAlt {
            interface: get8(body, 0),
            alt: get8(body, 1),
        }),
        10 => Packet::GetAlt(GetAlt {
            interface: get8(body, 0),
        }),
        11 => Packet::AltStatus(AltStatus {
            status: get8(body, 0),
            interface: get8(body, 1),
            alt: get8(body, 2),
        }),
        12 => Packet::StartIso(StartIso {
            endpoint: Endpoint(get8(body, 0)),
            packets: get8(body, 1),
            urbs: get8(body, 2),
        }),
        13 => Packet::StopIso(StopIso {
            endpoint: Endpoint(get8(body, 0)),
        }),
        14 => Packet::IsoStatus(IsoStatus {
            status: get8(body, 0),
            endpoint: Endpoint(get8(body, 1)),
        }),
        15 => Packet::StartInterrupt(StartInterrupt {
            endpoint: Endpoint(get8(body, 0)),
        }),
        16 => Packet::StopInterrupt(StopInterrupt {
            endpoint: Endpoint(get8(body, 0)),
        }),
        17 => Packet::InterruptStatus(InterruptStatus {
            status: get8(body, 0),
            endpoint: Endpoint(get8(body, 1)),
        }),
        18 => Packet::AllocStreams(AllocStreams {
            mask: get32(body, 0),
            count: get32(body, 4),
        }),
        19 => Packet::FreeStreams(FreeStreams {
            mask: get32(body, 0),
        }),
        20 => Packet::StreamsStatus(StreamsStatus {
            mask: get32(body, 0),
            count: get32(body, 4),
            status: get8(body, 8),
        }),
        21 => Packet::Cancel,
        22 => Packet::FilterReject,
        23 => Packet::Filter(Filter {
            string: after(body, 0),
        }),
        24 => Packet::DisconnectAck,
        25 => Packet::StartBulkReceiving(StartBulkReceiving {
            stream: get32(body, 0),
            bytes: get32(body, 4),
            endpoint: Endpoint(get8(body, 8)),
            transfers: get8(body, 9),
        }),
        26 => Packet::StopBulkReceiving(StopBulkReceiving {
            stream: get32(body, 0),
            endpoint: Endpoint(get8(body, 4)),
        }),
        _ => Packet::BulkReceivingStatus(BulkReceivingStatus {
            stream: get32(body, 0),
            endpoint: Endpoint(get8(body, 4)),
            status: get8(body, 5),
        }),
    }
}

// The fields of a kind with data, which take so many bytes, are all there.
fn check_fields(l: Link, h: Header, slot: usize, fields: usize, body: &[u8]) -> Result<(), Refusal>
    requires { (slot < 33) × (fields ≡ size (shared (shared_set l)) (kind_at slot).fields) }
    ensures { MatchResult result (λ u. fields ≤ length body.now) (λ r. ReadsKind l h slot body.now (Err r)) }
{
    if body.len() < fields {
        return Err(wrong_size(l, slot, h.id));
    }
    Ok(())
}

// A body of a kind below 100 behind its header.
fn read_kind(l: Link, h: Header, slot: usize, body: &[u8]) -> Result<(Header, Packet), Refusal>
    requires { slot < 28 }
    ensures { ReadsKind l h slot body.now result }
{
    let caps = shared_set(l);
    let n = body.len();
    let size = fields_size(slot, caps);
    if (n < size) | (!has_rest(slot) & (size < n)) {
        return Err(wrong_size(l, slot, h.id));
    }
    let p = read_body(caps, slot, body);
    check_wire(l, h.id, p, body)?;
    Ok((h, p))
}

// A body of each kind with data behind its header. Its packet is judged by its own fields, with no `match` over all
// kinds.
fn read_control(l: Link, h: Header, body: &[u8]) -> Result<(Header, Packet), Refusal>
    ensures { ReadsKind l h 28 body.now result }
{
    check_fields(l, h, 28, 10, body)?;
    let p = Control {
        endpoint: Endpoint(get8(body, 0)),
        request: get8(body, 1),
        requesttype: get8(body, 2),
        status: get8(body, 3),
        value: get16(body, 4),
        index: get16(body, 6),
        length: get16(body, 8),
        payload: after(body, 10),
    };
    check_control(l, h.id, p, body)?;
    Ok((h, Packet::Control(p)))
}

fn read_bulk(l: Link, h: Header, body: &[u8]) -> Result<(Header, Packet), Refusal>
    ensures { ReadsKind l h 29 body.now result }
{
    let caps = shared_set(l);
    let fields = bulk_fields(caps);
    check_fields(l, h, 29, fields, body)?;
    let p = Bulk {
        endpoint: Endpoint(get8(body, 0)),
        status: get8(body, 1),
        length: bulk_count(caps, body),
        stream: get32(body, 4),
        payload: after(body, fields),
    };
    check_bulk(l, h.id, p, body)?;
    Ok((h, Packet::Bulk(p)))
}

fn read_iso(l: Link, h: Header, body: &[u8]) -> Result<(Header, Packet), Refusal>
    ensures { ReadsKind l h 30 body.now result }
{
    check_fields(l, h, 30, 4, body)?;
    let p = Iso {
        endpoint: Endpoint(get8(body, 0)),
        status: get8(body, 1),
        length: get16(body, 2),
        payload: after(body, 4),
    };
    check_iso(l, h.id, p, body)?;
    Ok((h, Packet::Iso(p)))
}

fn read_interrupt(l: Link, h: Header, body: &[u8]) -> Result<(Header, Packet), Refusal>
    ensures { ReadsKind l h 31 body.now result }
{
    check_fields(l, h, 31, 4, body)?;
    let p = Interrupt {
        endpoint: Endpoint(get8(body, 0)),
        status: get8(body, 1),
        length: get16(body, 2),
        payload: after(body, 4),
    };
    check_interrupt(l, h.id, p, body)?;
    Ok((h, Packet::Interrupt(p)))
}

fn read_buffered(l: Link, h: Header, body: &[u8]) -> Result<(Header, Packet), Refusal>
    ensures { ReadsKind l h 32 body.now result }
{
    check_fields(l, h, 32, 10, body)?;
    let p = BufferedBulk {
        stream: get32(body, 0),
        length: get32(body, 4),
        endpoint: Endpoint(get8(body, 8)),
        status: get8(body, 9),
        payload: after(body, 10),
    };
    check_buffered(l, h.id, p, body)?;
    Ok((h, Packet::BufferedBulk(p)))
}

// A body of kinds 100 to 104 behind its header.
fn read_data(l: Link, h: Header, body: &[u8]) -> Result<(Header, Packet), Refusal>
    requires { (100 ≤ h.kind) × (h.kind ≤ 104) }
    ensures { told_behind l body.now result ≡ behind_of l h body.now }
{
    match h.kind {
        100 => read_control(l, h, body),
        101 => read_bulk(l, h, body),
        102 => read_iso(l, h, body),
        103 => read_interrupt(l, h, body),
        _ => read_buffered(l, h, body),
    }
}

// The packet behind a header: its kind and id are the header's, whose length is not looked at.
pub fn read_behind(l: Link, h: Header, body: &[u8]) -> Result<(Header, Packet), Refusal>
    ensures { told_behind l body.now result ≡ behind_of l h body.now }
{
    match h.kind {
        0..=27 => read_kind(l, h, h.kind as usize, body),
        100..=104 => read_data(l, h, body),
        _ => Err(Refusal::UnknownKind),
    }
}

// The bytes of one whole packet, under what both hellos offered: 10 to 12 by the header, 23 where the bytes are not
// as many as it says, else the wire checks.
pub fn read(l: Link, bytes: &[u8]) -> Result<(Header, Packet), Refusal>
    ensures { told l bytes.now result ≡ read_of l bytes.now }
{
    let h = read_header(l, bytes);
    let length = h.length as usize;
    if bytes.len() < h.size {
        return Err(Refusal::WrongSize);
    }
    check_header(l, h.kind, length)?;
    if bytes.len() != h.size + length {
        return Err(Refusal::WrongSize);
    }
    read_behind(l, h, &bytes[h.size..])
}
