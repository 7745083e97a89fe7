// The two ends, what their hellos offered, the shared set, and the packet header with its two widths.
#![tactic(auto)]

ghost use Rattle.std.specs.Prelude.{◌≡◌};
ghost use Rattle.header.specs.Link.{is_guest, side_of, shared_set, passed, id_width};
ghost use Rattle.header.specs.Header.{header_of, header_number};
ghost use Rattle.header.specs.Refusal.{number_of, number_in};

use octets::{get, get32, has_bit};

// The longest body.
pub const MAX_LENGTH: usize = 32768;

// The least holding buffer: room for the longest header and the longest body.
pub const HOLD_SIZE: usize = 16 + MAX_LENGTH;

#[derive(Clone, Copy, Debug, PartialEq, Eq)]
pub enum Side {
    Guest,
    Host,
}

// Why a call passes no packet; each has its number.
#[derive(Clone, Copy, Debug, PartialEq, Eq)]
pub enum Refusal {
    // of the session
    Waiting = 2,
    Stopped = 3,
    // of the header
    LengthTooLong = 10,
    NoHelloYet = 11,
    SecondHello = 12,
    // of the packet
    StreamsAlone = 13,
    UnknownKind = 20,
    WrongSender = 21,
    NotShared = 22,
    WrongSize = 23,
    BadField = 24,
    // of the packet in its session
    NoDevice = 25,
    OutOfOrder = 26,
    AckOwed = 27,
    WrongType = 28,
    Settling = 29,
    StreamClosed = 30,
    IdInUse = 31,
    TableFull = 32,
    NoSuchRequest = 33,
    ReplyTooLong = 34,
    // of the call
    OutputTooShort = 40,
    HoldTooShort = 41,
    Unfit = 43,
}

impl Refusal {
    pub fn number(self) -> u8
        ensures { result ≡ number_of self }
    {
        self as u8
    }
}

// One direction of a session as the wire checks see it: who sends, and the first capability word of each hello that has
// passed (0 if it had none).
#[derive(Clone, Copy)]
pub struct Link {
    pub sender: Side,
    pub guest: Option<u32>,
    pub host: Option<u32>,
}

// A header as read: its kind, the body length that it says, its id, and its own size in bytes.
#[derive(Clone, Copy)]
pub struct Header {
    pub kind: u32,
    pub length: u32,
    pub id: u64,
    pub size: usize,
}

pub fn is_guest(from: Side) -> bool
    ensures { result ≡ is_guest from }
{
    from == Side::Guest
}

// The side of a number: 0 for the guest, any other for the host.
pub fn side_of(n: u8) -> Side
    ensures { result ≡ side_of n }
{
    if n == 0 { Side::Guest } else { Side::Host }
}

// Of bits 0 to 7 those that both hellos offered; none before both have passed.
pub fn shared_set(l: Link) -> u32
    ensures { result ≡ shared_set l }
{
    l.guest.unwrap_or(0) & l.host.unwrap_or(0) & 255
}

pub fn has_passed(h: Option<u32>) -> bool
    ensures { result ≡ passed h }
{
    h.is_some()
}

// The sender's own hello has passed.
pub fn own_hello_passed(l: Link) -> bool
    ensures { result ≡ passed (Rattle.header.specs.Link.own l) }
{
    match l.sender {
        Side::Guest => l.guest.is_some(),
        Side::Host => l.host.is_some(),
    }
}

// The bytes of an id: 8 where 64-bit ids are shared, but 4 in every hello.
pub fn id_width(l: Link, kind: u32) -> usize
    ensures { result ≡ id_width l kind }
{
    if (kind != 0) & has_bit(shared_set(l), 5) {
        8
    } else {
        4
    }
}

// The header that the bytes begin with; bytes past their end count as 0.
pub fn read_header(l: Link, bytes: &[u8]) -> Header
    ensures { result ≡ header_of l bytes.now }
{
    let kind = get32(bytes, 0);
    let length = get32(bytes, 4);
    let width = id_width(l, kind);
    let id = get(bytes, 8, width);
    Header {
        kind,
        length,
        id,
        size: 8 + width,
    }
}

// Of 10, 11 and 12 the first that holds.
pub fn check_header(l: Link, kind: u32, length: usize) -> Result<(), Refusal>
    ensures { number_in result ≡ header_number l kind length }
{
    let is_long = MAX_LENGTH < length;
    if is_long {
        return Err(Refusal::LengthTooLong);
    }
    if own_hello_passed(l) {
        if kind == 0 {
            return Err(Refusal::SecondHello);
        }
    } else if kind != 0 {
        return Err(Refusal::NoHelloYet);
    }
    Ok(())
}
