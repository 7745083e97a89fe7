// Little-endian integers of any width up to 8 bytes, in slices, and the bits of a number.
// Reading past a slice's end gives 0 and writing there changes nothing, so no caller owes an index.
#![tactic(auto)]

ghost use Rattle.std.specs.Prelude.{◌≡◌, ◌+◌, ◌-◌, ◌≤◌, ◌<◌, ◌^◌, min, cond, length, get_or, set, leb, take, drop, MatchOption};
ghost use Rattle.std.proofs.lemmas.List.Edits.{sets};
ghost use Rattle.std.proofs.Math.Seq.{slice};
ghost use Rattle.octets.specs.Little.{le, bytes_of};
ghost use Rattle.octets.specs.Bits.{has_bit};

// The N bytes from `at` on, where all of them are there.
fn bytes_at<const N: usize>(s: &[u8], at: usize) -> Option<[u8; N]>
    ensures { MatchOption result (length s.now < at + N) (λ bytes. bytes ≡ take N (drop at s.now)) }
{
    s.get(at..)?.first_chunk().copied()
}

// What stands from `at` on.
fn after(s: &[u8], at: usize) -> &[u8]
    ensures { result.now ≡ drop at s.now }
{
    &s[at.min(s.len())..]
}

// The number that n bytes, at most 8, spell from `at` on, byte by byte.
fn gather(s: &[u8], at: usize, n: usize) -> u64
    ensures { (result ≡ le (min n 8) s.now at) × (result < 256 ^ min n 8) }
{
    let bytes = after(s, at);
    let mut x: u64 = 0;
    for i in (0..n.min(8)).rev() {
        x = x * 256 + u64::from(bytes.get(i).copied().unwrap_or(0));
    }
    x
}

// n bytes stand from `at` on.
fn stand(s: &[u8], at: usize, n: usize) -> bool
    ensures { result ≡ leb (at + n) (length s.now) }
{
    at <= s.len() && n <= s.len() - at
}

// The number that n bytes, at most 8, spell from `at` on. Four and eight that are there, as an id's, are read at once.
pub fn get(s: &[u8], at: usize, n: usize) -> u64
    ensures { (result ≡ le (min n 8) s.now at) × (result < 256 ^ min n 8) }
{
    if n == 4 {
        return u64::from(get32(s, at));
    }
    if n == 8
        && let Some(bytes) = bytes_at(s, at)
    {
        return u64::from_le_bytes(bytes);
    }
    gather(s, at, n)
}

pub fn get8(s: &[u8], at: usize) -> u8
    ensures { result ≡ le 1 s.now at }
{
    s.get(at).copied().unwrap_or(0)
}

pub fn get16(s: &[u8], at: usize) -> u16
    ensures { result ≡ le 2 s.now at }
{
    match bytes_at(s, at) {
        Some(bytes) => u16::from_le_bytes(bytes),
        None => gather(s, at, 2) as u16,
    }
}

pub fn get32(s: &[u8], at: usize) -> u32
    ensures { result ≡ le 4 s.now at }
{
    match bytes_at(s, at) {
        Some(bytes) => u32::from_le_bytes(bytes),
        None => gather(s, at, 4) as u32,
    }
}

// Lays x i places after `at`.
fn store_after(out: &mut [u8], at: usize, i: usize, x: u8)
    ensures { out.new ≡ set out.old (at + i) x }
{
    if at < out.len() && i < out.len() - at {
        out[at + i] = x;
    }
}

// Lays the n low bytes of x at `at`. Four and eight that have room, as an id's, are laid at once.
pub fn put(out: &mut [u8], at: usize, n: usize, x: u64)
    ensures { out.new ≡ sets out.old at (bytes_of n x) }
{
    match n {
        4 if stand(out, at, 4) => lay(out, at, &x.to_le_bytes()[..4]),
        8 if stand(out, at, 8) => lay(out, at, &x.to_le_bytes()),
        _ => {
            let mut y = x;
            for i in 0..n {
                store_after(out, at, i, (y & 255) as u8);
                y >>= 8;
            }
        }
    }
}

// Lays src at `at`, as far as there is room. By `copy_from_slice` this would be a call of C's memcpy, which misses the bar of
// instructions in the C library (bench/limits.txt, a packet cut every 60,000 bytes); the loop is compiled in place.
pub fn lay(out: &mut [u8], at: usize, src: &[u8])
    ensures { out.new ≡ sets out.old at src.now }
{
    let n = src.len().min(out.len().saturating_sub(at));
    for i in 0..n {
        out[at + i] = src[i];
    }
}

// Bit k of n is set.
pub fn has_bit(n: u32, k: u32) -> bool
    ensures { result ≡ has_bit n k }
{
    k < 32 && (n >> k) & 1 == 1
}

// The bytes from a up to e, as far as there are any.
pub fn part(s: &[u8], a: usize, e: usize) -> &[u8]
    ensures { result.now ≡ slice a e s.now }
{
    let end = e.min(s.len());
    &s[a.min(end)..end]
}
