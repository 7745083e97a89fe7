// The watch on stream packets: of each IN row the id that is expected next, how often another one came, and how far
// ahead of the expected one the last of these lay.
#![tactic(auto)]

ghost use Rattle.std.specs.Prelude.{◌≡◌, ◌<◌, ◌≤◌, MatchOption};
ghost use Rattle.watch.specs.Watch.{start_watch, index_of, watched_row, id_after, ahead, seen_on, begun_on, forgotten, breaks_on, gap_on};

use endpoint::{Endpoint, Row, row_of};

// The IN rows, 16 to 31.
pub const IN_ROWS: usize = 16;

// What is kept of an IN row.
#[derive(Clone, Copy)]
pub struct RowWatch {
    // the id that the next packet should have
    pub expected: u64,
    // how far ahead of it the last one lay that had another
    pub gap: u64,
    // how many had another
    pub breaks: u16,
}

// The IN rows; row 16 is the first.
#[derive(Clone, Copy)]
pub struct Watch {
    pub rows: [RowWatch; IN_ROWS],
}

// A watch at the start.
#[tactic(auto, unfolding(crate::specs::Watch::start_watch))]
pub fn start_watch() -> Watch
    ensures { result ≡ start_watch }
{
    let row = RowWatch {
        expected: 0,
        gap: 0,
        breaks: 0,
    };
    Watch {
        rows: [row; IN_ROWS],
    }
}

// Where an IN row stands in the watch; another row is not watched.
#[tactic(auto, unfolding(crate::specs::Watch::index_of))]
fn index_of(r: Row) -> Option<usize>
    ensures { MatchOption result (IN_ROWS ≤ index_of r) (λ i. (i ≡ index_of r) × (i < IN_ROWS)) }
{
    let row = r.0 as usize;
    if (16..32).contains(&row) {
        Some(row - 16)
    } else {
        None
    }
}

// Where an endpoint's row stands in the watch, where it is watched.
#[tactic(auto, unfolding(crate::specs::Watch::watched_row))]
fn watched_row(e: Endpoint) -> Option<usize>
    ensures { MatchOption result (IN_ROWS ≤ watched_row e) (λ i. (i ≡ watched_row e) × (i < IN_ROWS)) }
{
    index_of(row_of(e)?)
}

// The id after this one, at the width in force.
fn id_after(wide: bool, id: u64) -> u64
    ensures { result ≡ id_after wide id }
{
    if wide {
        id.wrapping_add(1)
    } else {
        ((id % 4294967296) as u32).wrapping_add(1) as u64
    }
}

// How far ahead of the expected id another lies, at the width in force.
fn distance(wide: bool, expected: u64, id: u64) -> u64
    ensures { result ≡ ahead wide expected id }
{
    if wide {
        id.wrapping_sub(expected)
    } else {
        ((id % 4294967296) as u32).wrapping_sub((expected % 4294967296) as u32) as u64
    }
}

impl Watch {
    // A packet with this id was seen on an endpoint. A count of breaks stops at 65,535.
    pub fn see(&mut self, e: Endpoint, wide: bool, id: u64)
        ensures { self.new ≡ seen_on wide id self.old e }
    {
        if let Some(i) = watched_row(e) {
            let row = &mut self.rows[i];
            let gap = distance(wide, row.expected, id);
            row.expected = id_after(wide, id);
            if gap != 0 {
                row.gap = gap;
                row.breaks = row.breaks.saturating_add(1);
            }
        }
    }

    // The ids of an endpoint begin anew: 0 is expected.
    pub fn begin(&mut self, e: Endpoint)
        ensures { self.new ≡ begun_on self.old e }
    {
        if let Some(i) = watched_row(e) {
            self.rows[i].expected = 0;
        }
    }

    // On every row 0 is expected; counts and gaps stay.
    pub fn forget(&mut self)
        ensures { self.new ≡ forgotten self.old }
    {
        for row in self.rows.iter_mut() {
            row.expected = 0;
        }
    }

    // How many packets of a row had another id than the expected one; 0 for a row that is not watched.
    #[tactic(auto, unfolding(crate::specs::Watch::breaks_on))]
    pub fn breaks_on(&self, r: Row) -> u16
        ensures { result ≡ breaks_on self.now r }
    {
        match index_of(r) {
            Some(i) => self.rows[i].breaks,
            None => 0,
        }
    }

    // How far ahead of the expected id the last packet of a row lay that had another; 0 where none had, and for a row
    // that is not watched.
    #[tactic(auto, unfolding(crate::specs::Watch::gap_on))]
    pub fn gap_on(&self, r: Row) -> u64
        ensures { result ≡ gap_on self.now r }
    {
        match index_of(r) {
            Some(i) => self.rows[i].gap,
            None => 0,
        }
    }
}
