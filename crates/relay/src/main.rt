// A relay between a guest and a host, to copy from: what each end sends is offered to the gate, and the packets that pass are sent on.
// Pieces come on standard input and packets go to standard output as records: a byte for the sender (0 guest, 1 host), two for the size, least
// significant first, and so many bytes.
#![tactic(auto)]

ghost use Rattle.std.specs.Prelude.{◌≤◌, length};
ghost use Rattle.relay.specs.Relaying.{OffersAll, RelaysPiece};

use gate::{bytes_of, offer};
use header::{HOLD_SIZE, Side, side_of};
use octets::{get16, lay, part, put};
use session::{Session, fresh_session};
use std::io;
use std::io::{Print, Read, Stdin, Stdout};

// The session; the bytes that wait; and whether the relay is over. Only one end's bytes can wait: those of the end whose hello passed first.
#[derive(Clone, Copy)]
struct Relay {
    session: Session,
    waiting: usize,
    over: bool,
}

// Sends a packet on, where it passed. Any other is dropped.
fn forward(stdout: Stdout, number: u8, from: Side, packet: &[u8]) -> io::Result<()> {
    if number != 0 {
        return Ok(());
    }
    let tag = match from {
        Side::Guest => 0,
        Side::Host => 1,
    };
    let mut head = [tag, 0, 0];
    put(&mut head, 1, 2, packet.len() as u64);
    stdout.write_all(&head)?;
    stdout.write_all(packet)
}

// Offers bytes of an end until they are used up, or a call takes none. The rest then waits for the other end's hello, at 2; at 3 the relay is
// over, and where a packet can't be sent on.
fn offer_all(stdout: Stdout, s: Session, from: Side, hold: &mut [u8], bytes: &[u8]) -> Relay
    ensures { OffersAll from s hold.old bytes.now result hold.new }
{
    let mut session = s;
    let mut rest = bytes;
    // a turn takes as many bytes as the call says
    while 0 < rest.len() {
        let o = offer(session, from, hold, rest);
        let a = o.answer;
        session = o.session;
        let sent = forward(stdout, a.number, from, bytes_of(a, rest, hold));
        rest = &rest[a.taken..];
        if sent.is_err() {
            return Relay {
                session,
                waiting: rest.len(),
                over: true,
            };
        }
        if a.taken == 0 {
            break;
        }
    }
    let over = session.head.stopped;
    Relay {
        session,
        waiting: rest.len(),
        over,
    }
}

// Reads until the buffer is full, or nothing more comes, and tells how many bytes came.
fn read_full(stdin: Stdin, buffer: &mut [u8]) -> usize
    ensures { result ≤ length buffer.new }
{
    let mut source = stdin;
    let mut n: usize = 0;
    // a turn reads as many bytes as come
    while n < buffer.len() {
        match source.read(&mut buffer[n..]) {
            Ok(0) | Err(_) => break,
            Ok(got) => n += got,
        }
    }
    n
}

impl Relay {
    // Relays a piece of an end. What is left of it is kept behind the bytes that wait, which are its own; where nothing is left, these are
    // the other end's and offered again.
    fn relay_piece(
        &mut self,
        stdout: Stdout,
        from: Side,
        hold: &mut [u8],
        to: Side,
        other: &mut [u8],
        piece: &[u8],
        kept: &mut [u8],
    )
        ensures { RelaysPiece self.old from to hold.old other.old piece.now kept.old self.new hold.new other.new kept.new }
    {
        let n = self.waiting;
        let offered = offer_all(stdout, self.session, from, hold, piece);
        let left = offered.waiting;
        if (0 < left) | (piece.len() == 0) | offered.over {
            let room = kept.len().saturating_sub(n);
            lay(kept, n, part(piece, piece.len() - left, piece.len()));
            self.session = offered.session;
            self.waiting = n + left.min(room);
            self.over = offered.over | (room < left);
        } else {
            *self = offer_all(stdout, offered.session, to, other, part(kept, 0, n));
        }
    }

    // A record is read, and its piece relayed. The input ends where no record comes.
    fn step(
        &mut self,
        stdin: Stdin,
        stdout: Stdout,
        guest: &mut [u8; HOLD_SIZE],
        host: &mut [u8; HOLD_SIZE],
        kept: &mut [u8; 65536],
    ) {
        let mut head = [0u8; 3];
        let mut bytes = [0u8; 65536];
        let ended = read_full(stdin, &mut head) < 3;
        let n = get16(&head, 1) as usize;
        let size = read_full(stdin, &mut bytes[..n]);
        let piece = part(&bytes, 0, size);
        match side_of(head[0]) {
            Side::Guest => self.relay_piece(
                stdout,
                Side::Guest,
                guest,
                Side::Host,
                host,
                piece,
                kept,
            ),
            Side::Host => self.relay_piece(
                stdout,
                Side::Host,
                host,
                Side::Guest,
                guest,
                piece,
                kept,
            ),
        }
        self.over |= ended;
    }
}

// A proved loop has to end, and nothing says that the input does. So the turns have a limit, a number that no run uses up.
fn run(
    stdin: Stdin,
    stdout: Stdout,
    guest: &mut [u8; HOLD_SIZE],
    host: &mut [u8; HOLD_SIZE],
    kept: &mut [u8; 65536],
) {
    let mut p = Relay {
        session: fresh_session(),
        waiting: 0,
        over: false,
    };
    for _ in 0..u64::MAX {
        if p.over {
            break;
        }
        p.step(stdin, stdout, guest, host, kept);
    }
}

fn main(rt: HostRuntime) {
    let mut guest = [0u8; HOLD_SIZE];
    let mut host = [0u8; HOLD_SIZE];
    let mut kept = [0u8; 65536];
    run(rt.stdin(), rt.stdout(), &mut guest, &mut host, &mut kept);
}
