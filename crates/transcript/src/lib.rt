// What a piece and an input line give in a report, and with which line unread input begins. A piece is offered until it is used up or the
// session takes no more, and each answer has its line.
#![tactic(auto)]

ghost use Rattle.std.specs.Prelude.{◌≡◌, ◌==◌};
ghost use Rattle.std.specs.List.{position};
ghost use Rattle.gate.specs.Offer.{offer_of};
ghost use Rattle.capture.specs.Lines.{line_of};
ghost use Rattle.capture.specs.Flaws.{flaw_of};
ghost use Rattle.transcript.specs.Piece.{gives_line, counted, report_of, LaysReport, CallReports};
ghost use Rattle.transcript.specs.Input.{step_of, line_end, next_of, PieceReports, LineReports};

use capture::{Flaw, decode_line, form_answer, form_bad};
use gate::{bytes_of, offer};
use header::{Side, read_header};
use octets::part;
use session::{Session, link_to};

// The answers that have a line: passed, and refused.
#[derive(Clone, Copy)]
pub struct Totals {
    pub passed: usize,
    pub refused: usize,
}

// The session and the totals after a piece, and the bytes that its lines have.
#[derive(Clone, Copy)]
pub struct Reported {
    pub session: Session,
    pub totals: Totals,
    pub size: usize,
}

// The same after an input line, and its flaw.
#[derive(Clone, Copy)]
pub struct Lined {
    pub reported: Reported,
    pub flaw: Option<Flaw>,
}

// Every answer but 1, 2, 3, 41 and 43.
fn gives_line(number: u8) -> bool
    ensures { result ≡ gives_line number }
{
    !matches!(number, 1 | 2 | 3 | 41 | 43)
}

impl Totals {
    fn count(&mut self, number: u8)
        ensures { self.new ≡ counted self.old number }
    {
        if number == 0 {
            self.passed = self.passed.saturating_add(1);
        } else {
            self.refused = self.refused.saturating_add(1);
        }
    }
}

impl Reported {
    // Offers what is left of a piece once, and lays the answer's line behind those of the calls before. The bytes that are over are told.
    fn report_call(&mut self, from: Side, hold: &mut [u8], rest: &[u8], out: &mut [u8]) -> usize
        ensures { CallReports from self.old rest.now out.old (offer_of from self.old.session hold.old rest.now) self.new result hold.new out.new }
    {
        let head = self.session.head;
        let at = self.size;
        let o = offer(self.session, from, hold, rest);
        let answer = o.answer;
        self.session = o.session;
        if !gives_line(answer.number) {
            return rest.len();
        }
        let h = read_header(link_to(head, from), bytes_of(answer, rest, hold));
        let line = form_answer(out, at, from, h.kind, h.length, h.id, answer.number);
        self.totals.count(answer.number);
        self.size = at.saturating_add(line);
        answer.taken
    }
}

// Offers a piece of what a side sends until it is used up, or is answered by a number that has no line. The lines are laid at the
// front of out.
pub fn report_piece(
    s: Session,
    t: Totals,
    from: Side,
    hold: &mut [u8],
    piece: &[u8],
    out: &mut [u8],
) -> Reported
    ensures { LaysReport (report_of from s t hold.old piece.now) out.old result hold.new out.new }
{
    let mut r = Reported {
        session: s,
        totals: t,
        size: 0,
    };
    let mut rest = piece;
    // a turn takes as many bytes as the call says
    while 0 < rest.len() {
        let used = r.report_call(from, hold, rest, out);
        rest = &rest[used..];
    }
    r
}

// Reports a piece with the holding buffer of its sender.
fn report_from(
    s: Session,
    t: Totals,
    from: Side,
    guest: &mut [u8],
    host: &mut [u8],
    piece: &[u8],
    out: &mut [u8],
) -> Reported
    ensures { PieceReports from (record { session = s; totals = t; guest = guest.old; host = host.old }) piece.now out.old result guest.new host.new out.new }
{
    match from {
        Side::Guest => report_piece(s, t, Side::Guest, guest, piece, out),
        Side::Host => report_piece(s, t, Side::Host, host, piece, out),
    }
}

// Reports an input line, without its newline. What it prints is laid at the front of out.
pub fn report_line(
    s: Session,
    t: Totals,
    guest: &mut [u8],
    host: &mut [u8],
    line: &[u8],
    out: &mut [u8],
) -> Lined
    ensures { LineReports (step_of (record { session = s; totals = t; guest = guest.old; host = host.old }) (line_of line.now)) (flaw_of line.now) out.old result guest.new host.new out.new }
{
    let mut bytes = [0u8; 2048];
    match decode_line(line, &mut bytes) {
        Ok(p) => {
            let reported = report_from(s, t, p.from, guest, host, part(&bytes, 0, p.size), out);
            Lined {
                reported,
                flaw: None,
            }
        }
        Err(flaw) => {
            let reported = Reported {
                session: s,
                totals: t,
                size: form_bad(out, 0),
            };
            Lined {
                reported,
                flaw: Some(flaw),
            }
        }
    }
}

fn newline(bytes: &[u8]) -> Option<usize>
    ensures { result ≡ position (λ b. b == 10) bytes.now }
{
    bytes.iter().position(|b| *b == b'\n')
}

// The bytes in front of the first newline; all of them where there is none.
fn line_end(bytes: &[u8]) -> usize
    ensures { result ≡ line_end bytes.now }
{
    newline(bytes).unwrap_or(bytes.len())
}

// What unread bytes, the last of the input or not, begin with. More than the longest good line has, 17 and 4,096, are a line.
pub fn next_line(bytes: &[u8], last: bool) -> Option<usize>
    ensures { result ≡ next_of bytes.now last }
{
    let end = line_end(bytes);
    let n = bytes.len();
    if (end < n) | (4113 < n) | (last & (0 < n)) {
        Some(end)
    } else {
        None
    }
}
