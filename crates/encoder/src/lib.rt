// Writing: a packet with its body to the number and the bytes put out.
#![tactic(auto)]

ghost use Rattle.std.specs.Prelude.{◌≡◌, ◌+◌, ◌≤◌, ◌<◌, length};
ghost use Rattle.std.proofs.lemmas.List.Edits.{sets};
ghost use Rattle.header.specs.Link.{shared_set};
ghost use Rattle.kinds.specs.Table.{kind_at};
ghost use Rattle.packet.specs.Packet.{content_of};
ghost use Rattle.encoder.specs.Written.{Writes};
ghost use Rattle.packet.specs.Fields.{in_widths};
ghost use Rattle.encoder.specs.Layout.{laid_out};

use header::{Link, check_header, id_width, shared_set};
use kinds::{fields_size, widths};
use octets::{lay, put};
use packet::{Fields, Packet, fields_of, part_of};
use rules::check_wire;

// The number of a packet that was to be written, and the bytes put out: none where it is not 0.
#[derive(Clone, Copy)]
pub struct Written {
    // a number, as the rules have it: the theorems of the writer speak of it
    pub number: u8,
    pub size: usize,
}

// No byte is put out.
fn refused(number: u8) -> Written
    ensures { result ≡ record { number = number; size = 0 } }
{
    Written { number, size: 0 }
}

// The number of a kind by its place in the table.
fn kind_of(slot: usize) -> u32
    requires { slot < 33 }
    ensures { result ≡ (kind_at slot).number }
{
    if slot < 28 {
        slot as u32
    } else {
        slot as u32 + 72
    }
}

// Lays n numbers, one behind the other and each in its width; the place behind them, which is at most 16 + 7 * 255,
// as a width is a byte.
fn lay_numbers(out: &mut [u8], at: usize, n: usize, ws: [u8; 7], xs: [u64; 7]) -> usize
    requires { (at ≤ 16) × (n ≤ 7) }
    ensures { (out.new ≡ sets out.old at (in_widths n ws xs)) × (result ≡ at + length (in_widths n ws xs)) × (result ≤ 1801) }
{
    let mut next = at;
    for i in 0..n {
        let w = ws[i] as usize;
        put(out, next, w, xs[i]);
        next += w;
    }
    next
}

// Lays a packet at the front of the output: its header, its numbers, its rows and what follows them, one behind the
// other.
fn lay_out(
    width: usize,
    kind: u32,
    id: u64,
    size: usize,
    f: Fields,
    ws: [u8; 7],
    rows: &[u8],
    rest: &[u8],
    out: &mut [u8],
)
    requires { (width ≤ 8) × (f.count ≤ 7) × (length rows.now ≤ 65536) }
    ensures { out.new ≡ sets out.old 0 (laid_out width kind id size (in_widths f.count ws f.numbers) rows.now rest.now) }
{
    put(out, 0, 4, kind as u64);
    put(out, 4, 4, size as u64);
    put(out, 8, width, id);
    let next = lay_numbers(out, 8 + width, f.count, ws, f.numbers);
    lay(out, next, rows);
    lay(out, next + rows.len(), rest);
}

// Writes a packet, whose parts lie in body, at the front of out; where the number is not 0, out stays as it is.
pub fn write(l: Link, id: u64, p: Packet, body: &[u8], out: &mut [u8]) -> Written
    ensures { Writes l (content_of (shared_set l) id p body.now) out.old result out.new }
{
    let caps = shared_set(l);
    let f = fields_of(caps, p);
    let slot = f.slot;
    let rest = part_of(body, f.rest);
    let kind = kind_of(slot);
    // a rest that is too long counts as 65,536 bytes, which is too long as well, so that the sum has no overflow
    let length = fields_size(slot, caps) + rest.len().min(65536);
    if let Err(refusal) = check_header(l, kind, length) {
        return refused(refusal.number());
    }
    if let Err(refusal) = check_wire(l, id, p, body) {
        return refused(refusal.number());
    }
    let width = id_width(l, kind);
    let size = 8 + width + length;
    let is_short = out.len() < size;
    if is_short {
        return refused(40);
    }
    lay_out(
        width,
        kind,
        id,
        length,
        f,
        widths(slot),
        part_of(body, f.rows),
        rest,
        out,
    );
    Written { number: 0, size }
}
