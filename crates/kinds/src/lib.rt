// Columns of the table of kinds (specs/Table.antt) as the code asks for them, by slot: kinds 0 to 27 stand at their
// number and 100 to 104 at 28 to 32. A slot past these asks for no kind: any sender, no bit, no field.
// Neighbours stand in arms of their own: alternatives that are neighbours compile to comparisons and not to a table.
#![tactic(auto)]

ghost use Rattle.std.specs.Prelude.{◌≡◌};
ghost use Rattle.kinds.specs.Table.{kind_at};
ghost use Rattle.kinds.specs.Content.{shared, size, needed_bit, widths as fieldWidths};
ghost use Rattle.kinds.specs.Number.{alone, sends};

use header::Side;
use octets::has_bit;

// The one side that sends the kind; none: both do.
#[tactic(auto, unfolding(crate::specs::Table::kinds))]
fn sender(slot: usize) -> Option<Side>
    ensures { result ≡ alone (kind_at slot).sender }
{
    match slot {
        1 | 4 | 8 | 11 | 14 | 17 | 20 | 27 | 32 => Some(Side::Host),
        2 | 5 => Some(Side::Host),
        3 | 6 | 9 | 12 | 15 | 18 | 21 | 25 => Some(Side::Guest),
        7 | 10 | 13 | 16 | 19 | 22 | 24 | 26 => Some(Side::Guest),
        0 | 23 | 28 | 30 => None,
        29 | 31 => None,
        33.. => None,
    }
}

// The side may send the kind.
pub fn may_send(slot: usize, from: Side) -> bool
    ensures { result ≡ sends (kind_at slot).sender from }
{
    match (sender(slot), from) {
        (Some(Side::Host), Side::Guest) | (Some(Side::Guest), Side::Host) => false,
        _ => true,
    }
}

// The bit that the kind needs.
#[tactic(auto, unfolding(crate::specs::Table::kinds))]
fn needed(slot: usize) -> Option<u32>
    ensures { result ≡ needed_bit (kind_at slot).needs }
{
    match slot {
        18 | 20 => Some(0),
        19 => Some(0),
        22 => Some(2),
        23 => Some(2),
        24 => Some(3),
        25 | 27 | 32 => Some(7),
        26 => Some(7),
        ..18 | 21 | 28 | 30 => None,
        29 | 31 => None,
        33.. => None,
    }
}

// The bit that the kind needs is shared.
pub fn is_shared(slot: usize, caps: u32) -> bool
    ensures { result ≡ shared caps (kind_at slot).needs }
{
    match needed(slot) {
        Some(k) => has_bit(caps, k),
        None => true,
    }
}

// The bytes of the kind's fields under a shared set.
#[tactic(auto, unfolding(crate::specs::Table::kinds))]
pub fn fields_size(slot: usize, caps: u32) -> usize
    ensures { result ≡ size (shared caps) (kind_at slot).fields }
{
    match slot {
        2 | 7 | 21 | 23 => 0,
        3 | 22 | 24 => 0,
        6 | 10 | 13 | 15 => 1,
        16 => 1,
        8 | 14 | 17 => 2,
        9 => 2,
        11 => 3,
        12 => 3,
        19 | 30 => 4,
        31 => 4,
        26 => 5,
        27 => 6,
        18 => 8,
        20 => 9,
        25 | 28 | 32 => 10,
        0 => 64,
        4 => 132,
        1 => { if has_bit(caps, 1) { 10 } else { 8 } }
        29 => { if has_bit(caps, 6) { 10 } else { 8 } }
        5 if !has_bit(caps, 4) => 96,
        5 => { if has_bit(caps, 0) { 288 } else { 160 } }
        33.. => 0,
    }
}

// The widths of the kind's fields in bytes, in body order; 0 past the last.
#[tactic(auto, unfolding(crate::specs::Table::kinds))]
pub fn widths(slot: usize) -> [u8; 7]
    ensures { result ≡ fieldWidths (kind_at slot).fields }
{
    match slot {
        2 | 7 | 21 | 23 => [0, 0, 0, 0, 0, 0, 0],
        3 | 22 | 24 => [0, 0, 0, 0, 0, 0, 0],
        0 | 6 | 10 | 13 | 15 => [1, 0, 0, 0, 0, 0, 0],
        16 => [1, 0, 0, 0, 0, 0, 0],
        8 | 14 | 17 => [1, 1, 0, 0, 0, 0, 0],
        9 => [1, 1, 0, 0, 0, 0, 0],
        11 => [1, 1, 1, 0, 0, 0, 0],
        12 => [1, 1, 1, 0, 0, 0, 0],
        5 => [1, 1, 1, 2, 4, 0, 0],
        1 | 28 => [1, 1, 1, 1, 2, 2, 2],
        30 => [1, 1, 2, 0, 0, 0, 0],
        31 => [1, 1, 2, 0, 0, 0, 0],
        29 => [1, 1, 2, 4, 2, 0, 0],
        19 => [4, 0, 0, 0, 0, 0, 0],
        26 => [4, 1, 0, 0, 0, 0, 0],
        27 => [4, 1, 1, 0, 0, 0, 0],
        4 => [4, 1, 1, 1, 1, 0, 0],
        18 => [4, 4, 0, 0, 0, 0, 0],
        20 => [4, 4, 1, 0, 0, 0, 0],
        25 | 32 => [4, 4, 1, 1, 0, 0, 0],
        33.. => [0, 0, 0, 0, 0, 0, 0],
    }
}
