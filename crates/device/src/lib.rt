// The device as the session knows it: its head, which is small and changes often, and the rows of its endpoints with
// their streams.
#![tactic(auto)]

ghost use Rattle.std.specs.Prelude.{◌≡◌};
ghost use Rattle.device.specs.Device.{start_rows, start_head, state_at, mask_mistyped, replaced, stream_to, touches, closed, touched, control_rows};

use endpoint::{Endpoint, Row, in_mask, row_of};

// The rows of the endpoints, a column for each thing that is kept of them: type and interface as the endpoint table
// gave them, and whether the stream is open.
#[derive(Clone, Copy)]
pub struct Rows {
    // bytes: a caller's session record may have any, and gets its answer
    pub types: [u8; 32],
    pub interfaces: [u8; 32],
    pub streams: [bool; 32],
}

// How far a device is introduced: not, by its endpoints, by its endpoints and then its interfaces.
#[derive(Clone, Copy)]
pub enum Introduction {
    Unintroduced,
    One,
    Two,
}

// The bytes of an unfinished packet that each direction holds.
#[derive(Clone, Copy)]
pub struct Held {
    pub guest: usize,
    pub host: usize,
}

// What is small and changes often: both hellos, whether the session is stopped, what is held, whether the device is
// there, how far it is introduced, and whether the ack of its last disconnect is owed.
#[derive(Clone, Copy)]
pub struct Head {
    pub guest: Option<u32>,
    pub host: Option<u32>,
    pub stopped: bool,
    pub held: Held,
    pub present: bool,
    pub introduction: Introduction,
    pub owed: bool,
}

// The rows whose data requests and streams a packet ends.
#[derive(Clone, Copy)]
pub enum Scope {
    NoRow,
    EveryRow,
    OfInterface(u8),
}

// A head at the start.
#[tactic(auto, unfolding(crate::specs::Device::start_head))]
pub fn start_head() -> Head
    ensures { result ≡ start_head }
{
    Head {
        guest: None,
        host: None,
        stopped: false,
        held: Held { guest: 0, host: 0 },
        present: false,
        introduction: Introduction::Unintroduced,
        owed: false,
    }
}

// The rows at the start: all invalid but 0 and 16, which are control.
#[tactic(auto, unfolding(crate::specs::Device::start_rows))]
pub fn start_rows() -> Rows
    ensures { result ≡ start_rows }
{
    let mut types = [255; 32];
    types[0] = 0;
    types[16] = 0;
    Rows {
        types,
        interfaces: [0; 32],
        streams: [false; 32],
    }
}

impl Scope {
    // A row of this interface is one of these; rows 0 and 16 are of no interface.
    fn touches(self, row: usize, interface: u8) -> bool
        ensures { result ≡ touches self row interface }
    {
        match self {
            Scope::NoRow => false,
            Scope::EveryRow => true,
            Scope::OfInterface(n) => row != 0 && row != 16 && interface == n,
        }
    }
}

impl Rows {
    // The type of an endpoint's row, invalid where its byte is no address.
    pub fn type_of(&self, e: Endpoint) -> u8
        ensures { result ≡ (state_at self.now e).ty }
    {
        match row_of(e) {
            Some(r) => self.types[r.0 as usize],
            None => 255,
        }
    }

    // The stream of an endpoint's row is open.
    pub fn is_streaming(&self, e: Endpoint) -> bool
        ensures { result ≡ (state_at self.now e).streaming }
    {
        match row_of(e) {
            Some(r) => self.streams[r.0 as usize],
            None => false,
        }
    }

    // A row of the mask has another type than this.
    pub fn has_mistyped(&self, mask: u32, ty: u8) -> bool
        ensures { result ≡ mask_mistyped self.now mask ty }
    {
        for (row, row_ty) in self.types.iter().enumerate() {
            if in_mask(mask, Row(row as u8)) && *row_ty != ty {
                return true;
            }
        }
        false
    }

    // Rows 0 and 16 are control.
    pub fn has_control_rows(&self) -> bool
        ensures { result ≡ control_rows self.now }
    {
        self.types[0] == 0 && self.types[16] == 0
    }

    // Opens or closes the stream of an endpoint's row, where the row has this type.
    #[tactic(auto, using(crate::proofs::RowFunctions::stream_put), unfolding(crate::specs::Device::stream_to))]
    pub fn set_stream(&mut self, e: Endpoint, ty: u8, streaming: bool)
        ensures { self.new ≡ stream_to self.old e ty streaming }
    {
        if let Some(r) = row_of(e) {
            let row = r.0 as usize;
            if self.types[row] == ty {
                self.streams[row] = streaming;
            }
        }
    }

    // Takes the rows that an endpoint table announces; the stream of a row that changes its type is closed.
    pub fn replace(&mut self, new: Rows)
        ensures { self.new ≡ replaced new self.old }
    {
        for row in 0..32 {
            self.streams[row] &= self.types[row] == new.types[row];
        }
        self.types = new.types;
        self.interfaces = new.interfaces;
    }

    // Closes the streams of these rows.
    pub fn close(&mut self, s: Scope)
        ensures { self.new ≡ closed self.old s }
    {
        match s {
            Scope::NoRow => {}
            Scope::EveryRow => self.streams = [false; 32],
            Scope::OfInterface(_) => {
                for row in 0..32 {
                    self.streams[row] &= !s.touches(row, self.interfaces[row]);
                }
            }
        }
    }

    // The row of an endpoint is one of these.
    #[tactic(auto, unfolding(crate::specs::Device::touched))]
    pub fn touches(&self, s: Scope, e: Endpoint) -> bool
        ensures { result ≡ touched self.now s e }
    {
        match s {
            Scope::NoRow => false,
            Scope::EveryRow => true,
            Scope::OfInterface(_) => match row_of(e) {
                Some(r) => {
                    let row = r.0 as usize;
                    s.touches(row, self.interfaces[row])
                }
                None => false,
            },
        }
    }
}
