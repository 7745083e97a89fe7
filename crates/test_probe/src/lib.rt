// What a host program in another language calls to test the library: plain numbers and byte slices.
// A side is 0 for the guest, else the host. A hello is its first word, or 4,294,967,296 and more before it has passed.
#![tactic(auto)]

ghost use Rattle.std.specs.Prelude.{◌≡◌, get_or};
ghost use Rattle.kinds.specs.Codec.{read_number};
ghost use Rattle.packet.specs.Fields.{fields_of};
ghost use Rattle.test_probe.specs.Probe.{hello_of, link_of, field_in, part_in, Rewrites, WritesBulk, row_in, interface_cell, endpoint_cell};

use decoder::read;
use encoder::write;
use endpoint::{Endpoint, Row, row_of};
use header::{Link, Side, shared_set, side_of};
use octets::part;
use packet::{
    Bulk, EndpointTable, InterfaceTable, Packet, Part, endpoint_row, fields_of, interface_row,
    rest_of, value16,
};

fn hello_of(word: u64) -> Option<u32>
    ensures { result ≡ hello_of word }
{
    u32::try_from(word).ok()
}

fn link_of(sender: u8, guest: u64, host: u64) -> Link
    ensures { result ≡ link_of sender guest host }
{
    Link {
        sender: side_of(sender),
        guest: hello_of(guest),
        host: hello_of(host),
    }
}

// Number i of seven, 0 past them.
fn pick(i: usize, xs: [u64; 7]) -> u64
    ensures { result ≡ get_or xs i 0 }
{
    if i < 7 { xs[i] } else { 0 }
}

// Field i of those that a packet holds as numbers, in body order; 0 where it is not there.
fn field_of(caps: u32, p: Packet, i: usize) -> u64
    ensures { result ≡ get_or (fields_of caps p).numbers i 0 }
{
    pick(i, fields_of(caps, p).numbers)
}

// The number of the bytes of one packet.
#[unsafe(no_mangle)]
pub extern "C" fn test_probe_number(sender: u8, guest: u64, host: u64, bytes: &[u8]) -> u8
    ensures { result ≡ read_number (link_of sender guest host) bytes.now }
{
    match read(link_of(sender, guest, host), bytes) {
        Ok(_) => 0,
        Err(r) => r.number(),
    }
}

// Field i of a packet that passes; 0 where it does not, and past its fields.
#[unsafe(no_mangle)]
pub extern "C" fn test_probe_field(sender: u8, guest: u64, host: u64, bytes: &[u8], i: usize) -> u64
    ensures { result ≡ field_in (link_of sender guest host) bytes.now i }
{
    let l = link_of(sender, guest, host);
    match read(l, bytes) {
        Err(_) => 0,
        Ok((_, p)) => field_of(shared_set(l), p, i),
    }
}

// Where in the packet's body that which follows its fields starts, or, where `end` is not 0, ends; 0 where the packet does not pass.
#[unsafe(no_mangle)]
pub extern "C" fn test_probe_part(sender: u8, guest: u64, host: u64, bytes: &[u8], end: u8) -> usize
    ensures { result ≡ part_in (link_of sender guest host) bytes.now end }
{
    let l = link_of(sender, guest, host);
    match read(l, bytes) {
        Err(_) => 0,
        Ok((_, p)) => {
            let q = rest_of(p);
            if end == 0 { q.start } else { q.end }
        }
    }
}

// The row of an endpoint's byte; 255 where it is no address.
#[unsafe(no_mangle)]
pub extern "C" fn test_probe_row(byte: u8) -> u8
    ensures { result ≡ row_in byte }
{
    match row_of(Endpoint(byte)) {
        Some(row) => row.0,
        None => 255,
    }
}

// Reads a packet and writes it again from its reading: the bytes put out, 0 where it does not pass or out is too short.
#[unsafe(no_mangle)]
pub extern "C" fn test_probe_rewrite(
    sender: u8,
    guest: u64,
    host: u64,
    bytes: &[u8],
    out: &mut [u8],
) -> usize
    ensures { Rewrites (link_of sender guest host) bytes.now out.old result out.new }
{
    let l = link_of(sender, guest, host);
    match read(l, bytes) {
        Err(_) => 0,
        Ok((h, p)) => {
            let body = part(bytes, h.size, bytes.len());
            write(l, h.id, p, body, out).size
        }
    }
}

// Writes a bulk packet with this count and all of body as its data, status and stream 0: the number.
#[unsafe(no_mangle)]
pub extern "C" fn test_probe_write_bulk(
    sender: u8,
    guest: u64,
    host: u64,
    id: u64,
    endpoint: u8,
    count: u32,
    body: &[u8],
    out: &mut [u8],
) -> u8
    ensures { WritesBulk (link_of sender guest host) id endpoint count body.now out.old result out.new }
{
    let l = link_of(sender, guest, host);
    let rest = Part {
        start: 0,
        end: body.len(),
    };
    let p = Bulk {
        endpoint: Endpoint(endpoint),
        status: 0,
        length: count,
        stream: 0,
        payload: rest,
    };
    write(l, id, Packet::Bulk(p), body, out).number
}

// A column (0 interface, 1 class, 2 subclass, 3 protocol) of a row of an interface table whose rows are that part of body.
#[unsafe(no_mangle)]
pub extern "C" fn test_probe_interface(
    body: &[u8],
    start: usize,
    end: usize,
    row: usize,
    column: usize,
) -> u64
    ensures { result ≡ interface_cell (record { start = start; end = end }) body.now row column }
{
    let rows = Part { start, end };
    let r = interface_row(body, InterfaceTable { count: 32, rows }, row);
    pick(
        column,
        [
            r.interface as u64,
            r.class as u64,
            r.subclass as u64,
            r.protocol as u64,
            0,
            0,
            0,
        ],
    )
}

// A column (0 type, 1 interval, 2 interface, 3 max packet, 4 max streams) of a row of an endpoint table whose rows are that
// part of body, with max packet and max streams where these are not 0.
#[unsafe(no_mangle)]
pub extern "C" fn test_probe_endpoint(
    body: &[u8],
    start: usize,
    end: usize,
    packets: u8,
    streams: u8,
    row: u8,
    column: usize,
) -> u64
    ensures { result ≡ endpoint_cell (record { start = start; end = end }) body.now packets streams row column }
{
    let rows = Part { start, end };
    let t = EndpointTable {
        rows,
        maxpacket: packets != 0,
        maxstreams: streams != 0,
    };
    let r = endpoint_row(body, t, Row(row));
    pick(
        column,
        [
            r.ty as u64,
            r.interval as u64,
            r.interface as u64,
            value16(r.maxpacket),
            r.maxstreams.unwrap_or(0) as u64,
            0,
            0,
        ],
    )
}
