// The entry for callers that keep a session record: the gate's reader, with the session changed in place.
#![tactic(auto)]

ghost use Rattle.std.specs.Prelude.{◌≡◌};
ghost use Rattle.session.specs.Session.{link_of};
ghost use Rattle.gate.specs.Offer.{outcome, offer_of};

use gate::{Answer, offer};
use header::Side;
use session::Session;

pub fn offer_in_place(s: &mut Session, from: Side, hold: &mut [u8], piece: &[u8]) -> Answer
    ensures { outcome (link_of from s.old) (record { session = s.new; answer = result }) piece.now hold.new ≡ offer_of from s.old hold.old piece.now }
{
    let r = offer(*s, from, hold, piece);
    *s = r.session;
    r.answer
}
