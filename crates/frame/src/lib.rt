// Framing: what the held bytes with a piece behind them are, what of the piece goes into the holding buffer, and
// where a packet lies.
#![tactic(auto)]

ghost use Rattle.std.specs.Prelude.{◌≡◌, ◌++◌, ◌-◌, ◌<◌, ◌≤◌, get_or};
ghost use Rattle.octets.specs.Little.{le};
ghost use Rattle.frame.specs.Frame.{told, cut_for, ends_within, completed, location_for, bytes_at};

use header::{Link, Refusal, check_header, id_width};
use octets::{get32, lay, part};

// What bytes are, counted from a packet's first byte: not a whole packet yet; a header that is refused, with why and
// its size; or a whole packet, with its kind, the size of its header and its own.
#[derive(Clone, Copy)]
pub enum Cut {
    More,
    BadHeader(Refusal, usize),
    WholePacket(u32, usize, usize),
}

// Where a packet's bytes lie: at the front of the piece or of the holding buffer.
#[derive(Clone, Copy)]
pub enum Location {
    Nowhere,
    Piece,
    Buffer,
}

// Byte i of a with b behind it, and 0 past the end.
fn byte_across(a: &[u8], b: &[u8], i: usize) -> u8
    ensures { result ≡ get_or (a.now ++ b.now) i 0 }
{
    match i.checked_sub(a.len()) {
        Some(j) => b.get(j).copied().unwrap_or(0),
        None => a[i],
    }
}

// The number that four bytes of a with b behind it spell from `at` on. All four mostly lie in one of the two.
fn get32_across(a: &[u8], b: &[u8], at: usize) -> u32
    requires { at ≤ 4 }
    ensures { result ≡ le 4 (a.now ++ b.now) at }
{
    if a.len() <= at {
        return get32(b, at - a.len());
    }
    if at + 4 <= a.len() {
        return get32(a, at);
    }
    let byte = |k: usize| byte_across(a, b, at + k);
    u32::from_le_bytes([byte(0), byte(1), byte(2), byte(3)])
}

// What the held bytes are with the piece behind them.
pub fn cut_of(l: Link, held: &[u8], piece: &[u8]) -> Cut
    ensures { told result ≡ cut_for l (held.now ++ piece.now) }
{
    let kind = get32_across(held, piece, 0);
    let length = get32_across(held, piece, 4) as usize;
    let header = 8 + id_width(l, kind);
    if piece.len() < header.saturating_sub(held.len()) {
        return Cut::More;
    }
    if let Err(refusal) = check_header(l, kind, length) {
        return Cut::BadHeader(refusal, header);
    }
    let size = header + length;
    if piece.len() < size.saturating_sub(held.len()) {
        return Cut::More;
    }
    Cut::WholePacket(kind, header, size)
}

// The packet, or the header that is refused, is whole within the first n bytes.
pub fn ends_within(c: Cut, n: usize) -> bool
    ensures { result ≡ ends_within (told c) n }
{
    match c {
        Cut::More => false,
        Cut::BadHeader(_, size) | Cut::WholePacket(_, _, size) => size <= n,
    }
}

// Where a packet lies of which so many bytes were held.
pub fn location_of(held: usize) -> Location
    ensures { result ≡ location_for held }
{
    if held == 0 {
        Location::Piece
    } else {
        Location::Buffer
    }
}

// Completes what was begun in the buffer to `size` bytes; what lies whole in the piece is not copied. The bytes
// taken of the piece.
pub fn complete(hold: &mut [u8], held: usize, piece: &[u8], size: usize) -> usize
    ensures { (result ≡ size - held) × (hold.new ≡ completed hold.old held piece.now size) }
{
    let taken = size.saturating_sub(held);
    if held != 0 {
        lay(hold, held, part(piece, 0, taken));
    }
    taken
}

// The first `size` bytes of the piece or of the buffer, wherever they lie.
pub fn lend<'a>(location: Location, size: usize, piece: &'a [u8], hold: &'a [u8]) -> &'a [u8]
    ensures { result.now ≡ bytes_at location size piece.now hold.now }
{
    match location {
        Location::Nowhere => part(piece, 0, 0),
        Location::Piece => part(piece, 0, size),
        Location::Buffer => part(hold, 0, size),
    }
}
