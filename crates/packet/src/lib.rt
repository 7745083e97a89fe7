// A packet as its own reading: a variant for each kind, with a struct of the kind's fields by the names of document 01.
// What is too long for a number stays in the packet's body and is named by its part: a hello's version and words,
// the rows of the two tables, a filter's string, data. Offsets count from the body's first byte.
#![tactic(auto)]

ghost use Rattle.std.specs.Bool.{then_some};
ghost use Rattle.std.specs.Prelude.{◌≡◌, ◌≤◌, ◌<◌, ◌^◌, [], ◌∷◌, cond, is_some};
ghost use Rattle.packet.specs.Packet.{in_part, rows_in, rest_of, is_hello};
ghost use Rattle.packet.specs.Fields.{or_zero, plain_fields, with_rows, with_rest, Lists};
ghost use Rattle.packet.specs.Rows.{table_size, cell_at, interface_row, endpoint_row, word_of};

use endpoint::{Endpoint, Row};
use octets::{get, get32, has_bit, part};

// Bytes of the body from start up to end.
#[derive(Clone, Copy)]
pub struct Part {
    pub start: usize,
    pub end: usize,
}

#[derive(Clone, Copy)]
pub struct Hello {
    pub version: Part,
    pub words: Part,
}

#[derive(Clone, Copy)]
pub struct Connect {
    pub speed: u8,
    pub class: u8,
    pub subclass: u8,
    pub protocol: u8,
    pub vendor: u16,
    pub product: u16,
    // there where its capability is shared
    pub version: Option<u16>,
}

#[derive(Clone, Copy)]
pub struct InterfaceTable {
    pub count: u32,
    pub rows: Part,
}

#[derive(Clone, Copy)]
pub struct EndpointTable {
    pub rows: Part,
    pub maxpacket: bool,
    pub maxstreams: bool,
}

#[derive(Clone, Copy)]
pub struct SetConfiguration {
    pub configuration: u8,
}

#[derive(Clone, Copy)]
pub struct ConfigurationStatus {
    pub status: u8,
    pub configuration: u8,
}

#[derive(Clone, Copy)]
pub struct SetAlt {
    pub interface: u8,
    pub alt: u8,
}

#[derive(Clone, Copy)]
pub struct GetAlt {
    pub interface: u8,
}

#[derive(Clone, Copy)]
pub struct AltStatus {
    pub status: u8,
    pub interface: u8,
    pub alt: u8,
}

#[derive(Clone, Copy)]
pub struct StartIso {
    pub endpoint: Endpoint,
    pub packets: u8,
    pub urbs: u8,
}

#[derive(Clone, Copy)]
pub struct StopIso {
    pub endpoint: Endpoint,
}

#[derive(Clone, Copy)]
pub struct IsoStatus {
    pub status: u8,
    pub endpoint: Endpoint,
}

#[derive(Clone, Copy)]
pub struct StartInterrupt {
    pub endpoint: Endpoint,
}

#[derive(Clone, Copy)]
pub struct StopInterrupt {
    pub endpoint: Endpoint,
}

#[derive(Clone, Copy)]
pub struct InterruptStatus {
    pub status: u8,
    pub endpoint: Endpoint,
}

#[derive(Clone, Copy)]
pub struct AllocStreams {
    pub mask: u32,
    pub count: u32,
}

#[derive(Clone, Copy)]
pub struct FreeStreams {
    pub mask: u32,
}

#[derive(Clone, Copy)]
pub struct StreamsStatus {
    pub mask: u32,
    pub count: u32,
    pub status: u8,
}

#[derive(Clone, Copy)]
pub struct Filter {
    pub string: Part,
}

#[derive(Clone, Copy)]
pub struct StartBulkReceiving {
    pub stream: u32,
    pub bytes: u32,
    pub endpoint: Endpoint,
    pub transfers: u8,
}

#[derive(Clone, Copy)]
pub struct StopBulkReceiving {
    pub stream: u32,
    pub endpoint: Endpoint,
}

#[derive(Clone, Copy)]
pub struct BulkReceivingStatus {
    pub stream: u32,
    pub endpoint: Endpoint,
    pub status: u8,
}

#[derive(Clone, Copy)]
pub struct Control {
    pub endpoint: Endpoint,
    pub request: u8,
    pub requesttype: u8,
    pub status: u8,
    pub value: u16,
    pub index: u16,
    pub length: u16,
    pub payload: Part,
}

#[derive(Clone, Copy)]
pub struct Bulk {
    pub endpoint: Endpoint,
    pub status: u8,
    pub length: u32,
    pub stream: u32,
    pub payload: Part,
}

#[derive(Clone, Copy)]
pub struct Iso {
    pub endpoint: Endpoint,
    pub status: u8,
    pub length: u16,
    pub payload: Part,
}

#[derive(Clone, Copy)]
pub struct Interrupt {
    pub endpoint: Endpoint,
    pub status: u8,
    pub length: u16,
    pub payload: Part,
}

#[derive(Clone, Copy)]
pub struct BufferedBulk {
    pub stream: u32,
    pub length: u32,
    pub endpoint: Endpoint,
    pub status: u8,
    pub payload: Part,
}

#[derive(Clone, Copy)]
pub enum Packet {
    Hello(Hello),
    Connect(Connect),
    Disconnect,
    Reset,
    InterfaceTable(InterfaceTable),
    EndpointTable(EndpointTable),
    SetConfiguration(SetConfiguration),
    GetConfiguration,
    ConfigurationStatus(ConfigurationStatus),
    SetAlt(SetAlt),
    GetAlt(GetAlt),
    AltStatus(AltStatus),
    StartIso(StartIso),
    StopIso(StopIso),
    IsoStatus(IsoStatus),
    StartInterrupt(StartInterrupt),
    StopInterrupt(StopInterrupt),
    InterruptStatus(InterruptStatus),
    AllocStreams(AllocStreams),
    FreeStreams(FreeStreams),
    StreamsStatus(StreamsStatus),
    Cancel,
    FilterReject,
    Filter(Filter),
    DisconnectAck,
    StartBulkReceiving(StartBulkReceiving),
    StopBulkReceiving(StopBulkReceiving),
    BulkReceivingStatus(BulkReceivingStatus),
    Control(Control),
    Bulk(Bulk),
    Iso(Iso),
    Interrupt(Interrupt),
    BufferedBulk(BufferedBulk),
}

// The bytes that a part names, as far as the body has them.
pub fn part_of(body: &[u8], p: Part) -> &[u8]
    ensures { result.now ≡ in_part p body.now }
{
    part(body, p.start, p.end)
}

// The part of the body that follows the fields: a hello's words, a filter's string, data; an empty one in the other
// kinds.
pub fn rest_of(p: Packet) -> Part
    ensures { result ≡ rest_of p }
{
    match p {
        Packet::Hello(x) => x.words,
        Packet::Filter(x) => x.string,
        Packet::Control(x) => x.payload,
        Packet::Bulk(x) => x.payload,
        Packet::Iso(x) => x.payload,
        Packet::Interrupt(x) => x.payload,
        Packet::BufferedBulk(x) => x.payload,
        _ => Part { start: 0, end: 0 },
    }
}

// A packet of kind 0.
pub fn is_hello(p: Packet) -> bool
    ensures { result ≡ is_hello p }
{
    matches!(p, Packet::Hello(_))
}

// ---- a packet by its fields

// The kind's place in the table; the fields that the packet holds as numbers, in body order, and how many of them
// are there; the part of the body with the fields that are many numbers; the part that follows all fields. A number
// that is not there is 0, a part an empty one.
#[derive(Clone, Copy)]
pub struct Fields {
    pub slot: usize,
    pub count: usize,
    pub numbers: [u64; 7],
    pub rows: Part,
    pub rest: Part,
}

// The number of a field, 0 where it is not there.
pub fn value16(x: Option<u16>) -> u64
    ensures { (result ≡ or_zero x) × (result < 65536) }
{
    u64::from(x.unwrap_or(0))
}

// Seven numbers; `few` says the four of most kinds, and the zeros behind them once.
fn many(slot: usize, count: usize, a: u64, b: u64, c: u64, d: u64, e: u64, f: u64, g: u64) -> Fields
    ensures { result ≡ plain_fields slot count (a ∷ b ∷ c ∷ d ∷ e ∷ f ∷ g ∷ []) }
{
    Fields {
        slot,
        count,
        numbers: [a, b, c, d, e, f, g],
        rows: Part { start: 0, end: 0 },
        rest: Part { start: 0, end: 0 },
    }
}

fn few(slot: usize, count: usize, a: u64, b: u64, c: u64, d: u64) -> Fields
    ensures { result ≡ plain_fields slot count (a ∷ b ∷ c ∷ d ∷ 0 ∷ 0 ∷ 0 ∷ []) }
{
    many(slot, count, a, b, c, d, 0, 0, 0)
}

// The fields of a connect packet, with its version or without.
fn connect_count(version: Option<u16>) -> usize
    ensures { result ≡ cond (is_some version) 7 6 }
{
    if version.is_some() { 7 } else { 6 }
}

fn with_rows(f: Fields, rows: Part) -> Fields
    ensures { result ≡ with_rows f rows }
{
    Fields { rows, ..f }
}

fn with_rest(f: Fields, rest: Part) -> Fields
    ensures { result ≡ with_rest f rest }
{
    Fields { rest, ..f }
}

pub fn fields_of(caps: u32, p: Packet) -> Fields
    ensures { Lists caps p result }
{
    match p {
        Packet::Hello(x) => { with_rest(with_rows(few(0, 0, 0, 0, 0, 0), x.version), x.words) }
        Packet::Connect(x) => {
            many(
                1,
                connect_count(x.version),
                x.speed as u64,
                x.class as u64,
                x.subclass as u64,
                x.protocol as u64,
                x.vendor as u64,
                x.product as u64,
                value16(x.version),
            )
        }
        Packet::Disconnect => few(2, 0, 0, 0, 0, 0),
        Packet::Reset => few(3, 0, 0, 0, 0, 0),
        Packet::InterfaceTable(x) => { with_rows(few(4, 1, x.count as u64, 0, 0, 0), x.rows) }
        Packet::EndpointTable(x) => { with_rows(few(5, 0, 0, 0, 0, 0), x.rows) }
        Packet::SetConfiguration(x) => few(6, 1, x.configuration as u64, 0, 0, 0),
        Packet::GetConfiguration => few(7, 0, 0, 0, 0, 0),
        Packet::ConfigurationStatus(x) => few(8, 2, x.status as u64, x.configuration as u64, 0, 0),
        Packet::SetAlt(x) => few(9, 2, x.interface as u64, x.alt as u64, 0, 0),
        Packet::GetAlt(x) => few(10, 1, x.interface as u64, 0, 0, 0),
        Packet::AltStatus(x) => few(11, 3, x.status as u64, x.interface as u64, x.alt as u64, 0),
        Packet::StartIso(x) => few(
            12,
            3,
            x.endpoint.0 as u64,
            x.packets as u64,
            x.urbs as u64,
            0,
        ),
        Packet::StopIso(x) => few(13, 1, x.endpoint.0 as u64, 0, 0, 0),
        Packet::IsoStatus(x) => few(14, 2, x.status as u64, x.endpoint.0 as u64, 0, 0),
        Packet::StartInterrupt(x) => few(15, 1, x.endpoint.0 as u64, 0, 0, 0),
        Packet::StopInterrupt(x) => few(16, 1, x.endpoint.0 as u64, 0, 0, 0),
        Packet::InterruptStatus(x) => few(17, 2, x.status as u64, x.endpoint.0 as u64, 0, 0),
        Packet::AllocStreams(x) => few(18, 2, x.mask as u64, x.count as u64, 0, 0),
        Packet::FreeStreams(x) => few(19, 1, x.mask as u64, 0, 0, 0),
        Packet::StreamsStatus(x) => few(20, 3, x.mask as u64, x.count as u64, x.status as u64, 0),
        Packet::Cancel => few(21, 0, 0, 0, 0, 0),
        Packet::FilterReject => few(22, 0, 0, 0, 0, 0),
        Packet::Filter(x) => { with_rest(few(23, 0, 0, 0, 0, 0), x.string) }
        Packet::DisconnectAck => few(24, 0, 0, 0, 0, 0),
        Packet::StartBulkReceiving(x) => few(
            25,
            4,
            x.stream as u64,
            x.bytes as u64,
            x.endpoint.0 as u64,
            x.transfers as u64,
        ),
        Packet::StopBulkReceiving(x) => few(26, 2, x.stream as u64, x.endpoint.0 as u64, 0, 0),
        Packet::BulkReceivingStatus(x) => few(
            27,
            3,
            x.stream as u64,
            x.endpoint.0 as u64,
            x.status as u64,
            0,
        ),
        Packet::Control(x) => {
            with_rest(
                many(
                    28,
                    7,
                    x.endpoint.0 as u64,
                    x.request as u64,
                    x.requesttype as u64,
                    x.status as u64,
                    x.value as u64,
                    x.index as u64,
                    x.length as u64,
                ),
                x.payload,
            )
        }
        Packet::Bulk(x) => {
            let is_high = has_bit(caps, 6) | (65535 < x.length);
            let count = if is_high { 5 } else { 4 };
            with_rest(
                many(
                    29,
                    count,
                    x.endpoint.0 as u64,
                    x.status as u64,
                    (x.length % 65536) as u64,
                    x.stream as u64,
                    (x.length / 65536) as u64,
                    0,
                    0,
                ),
                x.payload,
            )
        }
        Packet::Iso(x) => {
            with_rest(
                few(
                    30,
                    3,
                    x.endpoint.0 as u64,
                    x.status as u64,
                    x.length as u64,
                    0,
                ),
                x.payload,
            )
        }
        Packet::Interrupt(x) => {
            with_rest(
                few(
                    31,
                    3,
                    x.endpoint.0 as u64,
                    x.status as u64,
                    x.length as u64,
                    0,
                ),
                x.payload,
            )
        }
        Packet::BufferedBulk(x) => {
            with_rest(
                few(
                    32,
                    4,
                    x.stream as u64,
                    x.length as u64,
                    x.endpoint.0 as u64,
                    x.status as u64,
                ),
                x.payload,
            )
        }
    }
}

// ---- what a packet leaves in its body, read by row: the rows of the two tables, a hello's version and words

// One of the 32 interfaces of an interface table.
#[derive(Clone, Copy)]
pub struct InterfaceRow {
    pub interface: u8,
    pub class: u8,
    pub subclass: u8,
    pub protocol: u8,
}

// One of the 32 rows of an endpoint table.
#[derive(Clone, Copy)]
pub struct EndpointRow {
    // the endpoint's type
    pub ty: u8,
    pub interval: u8,
    pub interface: u8,
    pub maxpacket: Option<u16>,
    pub maxstreams: Option<u32>,
}

// Number i of a column of 32 numbers of w bytes each that starts at `at`; 0 past the column, or where it is cut short.
fn cell(rows: &[u8], at: usize, w: usize, i: usize) -> u64
    requires { (at ≤ 1024) × (0 < w) × (w ≤ 8) }
    ensures { (result ≡ cell_at rows.now at w i) × (result < 256 ^ w) }
{
    if i < 32 && at + w * 32 <= rows.len() {
        return get(rows, at + i * w, w);
    }
    0
}

// A cell of one byte, as a byte.
fn cell8(rows: &[u8], at: usize, i: usize) -> u8
    requires { at ≤ 1024 }
    ensures { result ≡ cell_at rows.now at 1 i }
{
    cell(rows, at, 1, i) as u8
}

// The rows of a table of that many bytes; none where the part is not as long.
pub fn rows_in(body: &[u8], rows: Part, size: usize) -> &[u8]
    ensures { result.now ≡ rows_in size (in_part rows body.now) }
{
    let s = part_of(body, rows);
    if s.len() == size {
        return s;
    }
    part(s, 0, 0)
}

// Row i of an interface table; all 0 past row 31.
pub fn interface_row(body: &[u8], t: InterfaceTable, i: usize) -> InterfaceRow
    ensures { result ≡ interface_row t body.now i }
{
    let s = rows_in(body, t.rows, 128);
    InterfaceRow {
        interface: cell8(s, 0, i),
        class: cell8(s, 32, i),
        subclass: cell8(s, 64, i),
        protocol: cell8(s, 96, i),
    }
}

// The bytes of an endpoint table, with max packet and max streams or without.
pub fn table_size(packets: bool, streams: bool) -> usize
    ensures { result ≡ table_size packets streams }
{
    match (packets, streams) {
        (true, true) => 288,
        (true, false) => 160,
        (false, true) => 224,
        (false, false) => 96,
    }
}

// A row of an endpoint table; all 0 past row 31.
pub fn endpoint_row(body: &[u8], t: EndpointTable, row: Row) -> EndpointRow
    ensures { result ≡ endpoint_row t body.now row.0 }
{
    let packets = t.maxpacket;
    let streams = t.maxstreams;
    let s = rows_in(body, t.rows, table_size(packets, streams));
    let i = row.0 as usize;
    // max streams stand behind the other columns
    let at = table_size(packets, false);
    EndpointRow {
        ty: cell8(s, 0, i),
        interval: cell8(s, 32, i),
        interface: cell8(s, 64, i),
        maxpacket: packets.then_some(cell(s, 96, 2, i) as u16),
        maxstreams: streams.then_some(cell(s, at, 4, i) as u32),
    }
}

// Capability word i of a hello, of which there are at most 8.
pub fn word_of(body: &[u8], h: Hello, i: usize) -> Option<u32>
    ensures { result ≡ word_of (in_part h.words body.now) i }
{
    let words = part_of(body, h.words);
    if i < 8 && 4 * i + 4 <= words.len() {
        return Some(get32(words, 4 * i));
    }
    None
}
