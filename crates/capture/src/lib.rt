// The report program's lines: an input line decoded, or why it can't be, and the lines that the report writes.
#![tactic(auto)]

ghost use Rattle.std.specs.Prelude.{◌≡◌, ◌+◌, ◌*◌, ◌<◌, Some, ◌++◌};
ghost use Rattle.std.specs.Result.{result_err};
ghost use Rattle.std.proofs.lemmas.List.Edits.{sets};
ghost use Rattle.capture.specs.Lines.{is_hex, all_hex, hex_value, spelt, piece_of, line_of, Decodes, decimal, side_field, answer_line, totals_line, bad_line, Forms, Starts, Adds};
ghost use Rattle.capture.specs.Flaws.{digits_flaw, flaw_of, reason, flaw_line, error_lines};

use header::Side;
use octets::{lay, put};

// Why a line can't be decoded: it starts otherwise; it has too many digits; one of them is none; or their count is odd.
#[derive(Clone, Copy)]
pub enum Flaw {
    Start,
    Long,
    Digit,
    Odd,
}

// What a good line offers: who sends the piece, and how many bytes it has.
#[derive(Clone, Copy)]
pub struct Piece {
    pub from: Side,
    pub size: usize,
}

fn is_hex(b: u8) -> bool
    ensures { result ≡ is_hex b }
{
    matches!(b, b'0'..=b'9' | b'a'..=b'f')
}

fn all_hex(s: &[u8]) -> bool
    ensures { result ≡ all_hex s.now }
{
    s.iter().all(|b| is_hex(*b))
}

// The flaw of what stands behind `bytes=`. That it is too long is told first, so that the rest of such a line need not be known.
fn test_digits(s: &[u8]) -> Result<(), Flaw>
    ensures { result_err result ≡ digits_flaw s.now }
{
    if 4096 < s.len() {
        return Err(Flaw::Long);
    }
    if !all_hex(s) {
        return Err(Flaw::Digit);
    }
    if s.len() % 2 != 0 {
        return Err(Flaw::Odd);
    }
    Ok(())
}

// The value of a digit; 0 of any other byte.
fn hex_value(b: u8) -> u8
    ensures { (result ≡ hex_value b) × (result < 16) }
{
    match b {
        b'0'..=b'9' => b - b'0',
        b'a'..=b'f' => b - b'a' + 10,
        _ => 0,
    }
}

fn hex_pair(high: u8, low: u8) -> u8
    ensures { result ≡ 16 * hex_value high + hex_value low }
{
    16 * hex_value(high) + hex_value(low)
}

// Lays the bytes that s spells.
fn lay_spelt(s: &[u8], out: &mut [u8])
    ensures { out.new ≡ sets out.old 0 (spelt s.now) }
{
    for i in 0..s.len() / 2 {
        put(out, i, 1, hex_pair(s[2 * i], s[2 * i + 1]) as u64);
    }
}

// Decodes what stands behind `bytes=`. The digits are tested first, so that a bad line lays nothing.
fn decode_piece(from: Side, s: &[u8], out: &mut [u8]) -> Result<Piece, Flaw>
    ensures { Decodes (piece_of from s.now) (digits_flaw s.now) out.old result out.new }
{
    test_digits(s)?;
    lay_spelt(s, out);
    Ok(Piece {
        from,
        size: s.len() / 2,
    })
}

// Decodes a line, without its newline: its bytes are laid at the front of out, and their count is told. A bad line changes nothing, and its
// flaw is told.
pub fn decode_line(line: &[u8], out: &mut [u8]) -> Result<Piece, Flaw>
    ensures { Decodes (line_of line.now) (flaw_of line.now) out.old result out.new }
{
    if let Some(digits) = line.strip_prefix(b"from=guest bytes=") {
        return decode_piece(Side::Guest, digits, out);
    }
    if let Some(digits) = line.strip_prefix(b"from=host bytes=") {
        return decode_piece(Side::Host, digits, out);
    }
    Err(Flaw::Start)
}

// A text that is laid into out, part by part: where it starts, and how many bytes it has so far.
#[derive(Drop)]
struct Text<'a> {
    out: &'a mut [u8],
    at: usize,
    size: usize,
}

impl<'a> Text<'a> {
    fn new(out: &'a mut [u8], at: usize) -> Text<'a>
        ensures { Starts out.entry at result }
    {
        Text { out, at, size: 0 }
    }

    fn add(&mut self, text: &[u8])
        ensures { Adds text.now self.old self.new }
    {
        let end = self.at.saturating_add(self.size);
        lay(self.out, end, text);
        self.size = self.size.saturating_add(text.len());
    }

    // Adds x in decimal. Its digits are made from the last to the first.
    fn add_decimal(&mut self, x: u64)
        ensures { Adds (decimal x) self.old self.new }
    {
        let mut digits = [0u8; 20];
        let mut i: usize = 19;
        let mut n = x;
        digits[19] = b'0' + (n % 10) as u8;
        // the number ends the loop, not the index
        while 10 <= n {
            n = n / 10;
            i -= 1;
            digits[i] = b'0' + (n % 10) as u8;
        }
        self.add(&digits[i..]);
    }

    // Adds a name and its number.
    fn add_field(&mut self, name: &[u8], x: u64)
        ensures { Adds (name.now ++ decimal x) self.old self.new }
    {
        self.add(name);
        self.add_decimal(x);
    }

    fn add_side(&mut self, from: Side)
        ensures { Adds (side_field from) self.old self.new }
    {
        match from {
            Side::Guest => self.add(b"from=guest"),
            Side::Host => self.add(b"from=host"),
        }
    }

    // Adds which line has the flaw.
    fn add_flaw(&mut self, line: usize, flaw: Flaw)
        ensures { Adds (flaw_line line (Some flaw)) self.old self.new }
    {
        self.add_field(b"report: line ", line as u64);
        self.add(b": ");
        self.add(reason(flaw));
        self.add(b"\n");
    }
}

// Lays the line of an answer at `at`, and tells how many bytes it has.
pub fn form_answer(
    out: &mut [u8],
    at: usize,
    from: Side,
    kind: u32,
    length: u32,
    id: u64,
    answer: u8,
) -> usize
    ensures { Forms (answer_line from kind length id answer) at out.old result out.new }
{
    let mut line = Text::new(out, at);
    line.add_side(from);
    line.add_field(b" type=", kind as u64);
    line.add_field(b" length=", length as u64);
    line.add_field(b" id=", id);
    line.add_field(b" answer=", answer as u64);
    line.add(b"\n");
    line.size
}

// Lays the line of the totals at `at`, and tells how many bytes it has.
pub fn form_totals(out: &mut [u8], at: usize, passed: usize, refused: usize, stopped: bool) -> usize
    ensures { Forms (totals_line passed refused stopped) at out.old result out.new }
{
    let mut line = Text::new(out, at);
    line.add_field(b"passed=", passed as u64);
    line.add_field(b" refused=", refused as u64);
    line.add_field(b" stopped=", stopped as u64);
    line.add(b"\n");
    line.size
}

// Lays the line for an input line that can't be decoded at `at`, and tells how many bytes it has.
pub fn form_bad(out: &mut [u8], at: usize) -> usize
    ensures { Forms bad_line at out.old result out.new }
{
    lay(out, at, b"line=bad\n");
    9
}

// Why a line is bad, in words.
fn reason(flaw: Flaw) -> &'static [u8]
    ensures { result.now ≡ reason flaw }
{
    match flaw {
        Flaw::Start => b"it starts with neither from=guest bytes= nor from=host bytes=",
        Flaw::Long => b"more than 4,096 digits",
        Flaw::Digit => b"a byte behind bytes= that is no hex digit in lower case",
        Flaw::Odd => b"an odd count of digits",
    }
}

// Lays what the report says on standard error at the front of out, and tells how many bytes that are: the line that is bad and why, that a read
// failed, and that a write failed; nothing where none of it is so.
pub fn form_errors(out: &mut [u8], line: usize, flaw: Option<Flaw>, cut: bool, lost: bool) -> usize
    ensures { Forms (error_lines line flaw cut lost) 0 out.old result out.new }
{
    let mut said = Text::new(out, 0);
    if let Some(flaw) = flaw {
        said.add_flaw(line, flaw);
    }
    if cut {
        said.add(b"report: a read failed, and the input ends there\n");
    }
    if lost {
        said.add(b"report: a write failed, and the output is not whole\n");
    }
    said.size
}
