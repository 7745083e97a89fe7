// The report program: reads pieces from standard input, a line each, offers them to a session, and prints a line for each answer and then
// the totals. It holds a part of the input and a part of the output, in buffers that do not grow. Standard error gets what went wrong.
#![tactic(auto)]

ghost use Rattle.std.specs.Prelude.{◌+◌, ◌≤◌, ◌≡◌, false, is_err, length, take, drop};
ghost use Rattle.std.proofs.lemmas.List.Edits.{sets};
ghost use Rattle.capture.specs.Lines.{totals_line};
ghost use Rattle.capture.specs.Flaws.{error_lines};
ghost use Rattle.transcript.specs.Input.{start as started};
ghost use Rattle.report.specs.Program.{Fits, begun, Prints, Writes, ReadsMore, memory, beginning, Steps, Runs, Reports};

use capture::{Flaw, form_errors, form_totals};
use header::HOLD_SIZE;
use session::{Session, fresh_session};
use std::io;
use std::io::{ErrorKind, Read, Stderr, Stdin, Stdout, Write};
use transcript::{Totals, next_line, report_line};

// The session and the totals; the unread bytes, from start to end of the input buffer, and whether no more come; the bytes of output that
// are not written yet; whether the input is over; the count of lines so far, and the flaw of the last, if it has one; and whether a read failed,
// and a write.
#[derive(Clone, Copy)]
struct State {
    session: Session,
    totals: Totals,
    start: usize,
    end: usize,
    last: bool,
    size: usize,
    over: bool,
    lines: usize,
    flaw: Option<Flaw>,
    cut: bool,
    lost: bool,
}

fn begin() -> State
    ensures { result ≡ begun }
{
    State {
        session: fresh_session(),
        totals: Totals {
            passed: 0,
            refused: 0,
        },
        start: 0,
        end: 0,
        last: false,
        size: 0,
        over: false,
        lines: 0,
        flaw: None,
        cut: false,
        lost: false,
    }
}

// Moves n bytes from start on to the front.
fn shift(s: &mut [u8], start: usize, n: usize)
    requires { start + n ≤ length s.old }
    ensures { s.new ≡ sets s.old 0 (take n (drop start s.old)) }
{
    s.copy_within(start..start + n, 0);
}

// Writes all of s, or fails. Which bytes a write takes, and whether it fails, is C's alone; for no bytes there is none. The library's
// `write_all` would try again after an interrupt, where the report tells of a failed write.
fn write_all<W: Write + Drop>(to: W, s: &[u8]) -> io::Result<()>
    ensures { length s.now ≡ 0 → is_err result ≡ false }
{
    let mut sink = to;
    let mut rest = s;
    // a turn writes as many bytes as C takes
    while 0 < rest.len() {
        let n = sink.write(rest)?;
        if n == 0 {
            return Err(ErrorKind::WriteZero.into());
        }
        rest = &rest[n..];
    }
    Ok(())
}

impl State {
    // Reads more behind the unread bytes, for which there is room. Where nothing comes, the input has ended.
    fn read_more(&mut self, stdin: Stdin, input: &mut [u8])
        requires { Fits self.old × (length input.old ≡ 65536) × (self.old.end ≤ self.old.start + 4113) }
        ensures { ReadsMore self.old input.old self.new input.new }
    {
        let n = self.end - self.start;
        shift(input, self.start, n);
        self.start = 0;
        let mut source = stdin;
        match source.read(&mut input[n..]) {
            Ok(got) => {
                self.end = n + got;
                self.last = got == 0;
                self.cut = false;
            }
            Err(_) => {
                self.end = n;
                self.last = true;
                self.cut = true;
            }
        }
    }

    // Writes the output, where it leaves no room for that of another line. A write that fails ends the input.
    fn write_much(&mut self, stdout: Stdout, out: &[u8])
        requires { self.old.size ≤ length out.now }
        ensures { Writes self.old self.new }
    {
        if 22528 < self.size {
            let failed = write_all(stdout, &out[..self.size]).is_err();
            self.size = 0;
            self.over |= failed;
            self.lost |= failed;
        }
    }

    // Reports the line of k bytes with which the unread bytes begin.
    fn print_line(
        &mut self,
        stdout: Stdout,
        k: usize,
        guest: &mut [u8],
        host: &mut [u8],
        input: &[u8],
        out: &mut [u8],
    )
        requires { Fits self.old × (length input.now ≡ 65536) × (length out.old ≡ 262144) × (self.old.start + k ≤ self.old.end) }
        ensures { Prints self.old k guest.old host.old input.now out.old self.new guest.new host.new out.new }
    {
        let end = self.start + k;
        let l = report_line(
            self.session,
            self.totals,
            guest,
            host,
            &input[self.start..end],
            &mut out[self.size..],
        );
        let r = l.reported;
        self.session = r.session;
        self.totals = r.totals;
        self.start = (end + 1).min(self.end);
        self.size += r.size;
        self.over = l.flaw.is_some();
        self.lines = self.lines.saturating_add(1);
        self.flaw = l.flaw;
        self.write_much(stdout, out);
    }

    // A line is reported, or more is read, or the input is over.
    fn step(
        &mut self,
        stdin: Stdin,
        stdout: Stdout,
        guest: &mut [u8],
        host: &mut [u8],
        input: &mut [u8],
        out: &mut [u8],
    )
        requires { Fits self.old × (length input.old ≡ 65536) × (length out.old ≡ 262144) }
        ensures { Steps (memory self.old guest.old host.old input.old out.old) (memory self.new guest.new host.new input.new out.new) }
    {
        match next_line(&input[self.start..self.end], self.last) {
            Some(k) => self.print_line(stdout, k, guest, host, input, out),
            None if self.last => self.over = true,
            None => self.read_more(stdin, input),
        }
    }

    // Prints the totals behind the output that is not written yet.
    fn print_totals(&self, stdout: Stdout, out: &mut [u8]) -> io::Result<()>
        requires { Fits self.now × (length out.old ≡ 262144) }
        ensures { out.new ≡ sets out.old self.now.size (totals_line self.now.totals.passed self.now.totals.refused self.now.session.head.stopped) }
    {
        let stopped = self.session.head.stopped;
        let n = form_totals(
            out,
            self.size,
            self.totals.passed,
            self.totals.refused,
            stopped,
        );
        write_all(stdout, &out[..self.size + n])
    }

    // Says on standard error what went wrong, if anything did.
    fn tell_errors(&self, stderr: Stderr, lost: bool, errors: &mut [u8])
        requires { length errors.old ≡ 256 }
        ensures { errors.new ≡ sets errors.old 0 (error_lines self.now.lines self.now.flaw self.now.cut lost) }
    {
        let n = form_errors(errors, self.lines, self.flaw, self.cut, lost);
        let _ = write_all(stderr, &errors[..n]);
    }
}

// A proved loop has to end, and nothing says that the input does. So the turns have a limit, a number that no run uses up.
fn run(
    stdin: Stdin,
    stdout: Stdout,
    guest: &mut [u8],
    host: &mut [u8],
    input: &mut [u8],
    out: &mut [u8],
) -> State
    requires { (guest.old ≡ started.guest) × (host.old ≡ started.host) × (length input.old ≡ 65536) × (length out.old ≡ 262144) }
    ensures { Runs (beginning input.old out.old) (memory result guest.new host.new input.new out.new) }
{
    let mut p = begin();
    for _turn in 0..u64::MAX {
        if p.over {
            break;
        }
        p.step(stdin, stdout, guest, host, input, out);
    }
    p
}

// Reports the whole input.
fn report_input(
    stdin: Stdin,
    stdout: Stdout,
    stderr: Stderr,
    guest: &mut [u8],
    host: &mut [u8],
    input: &mut [u8],
    out: &mut [u8],
    errors: &mut [u8],
)
    requires { (guest.old ≡ started.guest) × (host.old ≡ started.host) × (length input.old ≡ 65536) × (length out.old ≡ 262144) × (length errors.old ≡ 256) }
    ensures { Reports input.old out.old errors.old guest.new host.new input.new out.new errors.new }
{
    let p = run(stdin, stdout, guest, host, input, out);
    let lost = p.print_totals(stdout, out).is_err();
    p.tell_errors(stderr, p.lost | lost, errors);
}

fn main(rt: HostRuntime) {
    let mut guest = [0u8; HOLD_SIZE];
    let mut host = [0u8; HOLD_SIZE];
    let mut input = [0u8; 65536];
    let mut out = [0u8; 262144];
    let mut errors = [0u8; 256];
    report_input(
        rt.stdin(),
        rt.stdout(),
        rt.stderr(),
        &mut guest,
        &mut host,
        &mut input,
        &mut out,
        &mut errors,
    );
}
