// Endpoint address bytes, rows of the endpoint table, and masks of rows.
#![tactic(auto)]

ghost use Rattle.std.specs.Prelude.{◌≡◌};
ghost use Rattle.octets.specs.Bits.{has_bit};
ghost use Rattle.endpoint.specs.Endpoint.{is_address, is_in, row_of, endpoint_of};

use octets::has_bit;

// An endpoint's address as on the wire: the number in bits 0 to 3, IN in bit 7.
#[derive(Clone, Copy, PartialEq, Eq, Debug)]
pub struct Endpoint(pub u8);

// A row of the endpoint table: 0 to 15 for OUT, 16 to 31 for IN.
#[derive(Clone, Copy, PartialEq, Eq, Debug)]
pub struct Row(pub u8);

// Bits 4 to 6 are zero.
pub fn is_address(e: Endpoint) -> bool
    ensures { result ≡ is_address e }
{
    (e.0 >> 4) & 7 == 0
}

pub fn is_in(e: Endpoint) -> bool
    ensures { result ≡ is_in e }
{
    e.0 >> 7 == 1
}

// The row of an endpoint, where its byte is an address.
pub fn row_of(e: Endpoint) -> Option<Row>
    ensures { result ≡ row_of e }
{
    if is_address(e) {
        Some(Row((e.0 & 15) | ((e.0 >> 7) << 4)))
    } else {
        None
    }
}

// The endpoint of a row, where its number is one of the 32.
pub fn endpoint_of(r: Row) -> Option<Endpoint>
    ensures { result ≡ endpoint_of r }
{
    if r.0 < 32 {
        Some(Endpoint((r.0 & 15) | ((r.0 >> 4) << 7)))
    } else {
        None
    }
}

// A mask holds a row by the bit of the row's number.
pub fn in_mask(mask: u32, r: Row) -> bool
    ensures { result ≡ has_bit mask r.0 }
{
    has_bit(mask, u32::from(r.0))
}
