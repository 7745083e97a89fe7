// Packets judged whole, one after the other, from a fresh session: for hosts in other languages that test the session. It is not the
// gate: it holds nothing and never stops.
#![tactic(auto)]

ghost use Rattle.std.specs.Prelude.{◌≡◌, true};
ghost use Rattle.requests.specs.Requests.{ids_differ};
ghost use Rattle.gate.specs.Verdict.{verdict_of};
ghost use Rattle.test_replay.specs.Replay.{Replays, Gives};

use checks::rule;
use decoder::read;
use events::{announced, case_of};
use header::{Side, side_of};
use octets::{get8, get16, get32, part};
use session::{Session, fresh_session, link_to};

// Judges the bytes of one whole packet, by the wire checks, then the session checks, and tells its number. A reply finds its request by
// its id, so that no two live requests may have one; from a fresh session on none do.
fn judge(s: &mut Session, from: Side, bytes: &[u8]) -> u8
    ensures { ids_differ s.old.requests ≡ true → Gives s.new result (verdict_of s.old from bytes.now) }
{
    match read(link_to(s.head, from), bytes) {
        Err(r) => {
            let told = r.number();
            // a hello stops the session
            if get32(bytes, 0) == 0 {
                s.head.stopped = true;
            }
            told
        }
        Ok((g, p)) => {
            let body = part(bytes, g.size, bytes.len());
            match rule(s.head, &s.rows, &s.requests, case_of(from, g.id, p, body)) {
                Ok(change) => {
                    s.apply(from, change, &announced(p, body));
                    0
                }
                Err(r) => r.number(),
            }
        }
    }
}

// Writes the number of each packet of a script, as far as the script and the output go, and tells how many.
#[unsafe(no_mangle)]
pub extern "C" fn test_replay(script: &[u8], out: &mut [u8]) -> usize
    ensures { Replays script.now out.old out.new result }
{
    let mut s = fresh_session();
    let mut at: usize = 0;
    for k in 0..out.len() {
        let rest = &script[at..];
        let size = 3 + get16(rest, 1) as usize;
        if rest.len() < size {
            return k;
        }
        out[k] = judge(&mut s, side_of(get8(rest, 0)), part(rest, 3, size));
        at += size;
    }
    out.len()
}
