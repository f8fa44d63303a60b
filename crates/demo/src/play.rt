// A session's calls: each message goes from the end that gives it to the other, and into the record's bodies.
ghost use Rattle.std.specs.Prelude.{◌≡◌, ◌≤◌, length};

use crate::refused::Refused;
use crate::terms::Terms;
use card_state::Card;
use carrier_state::Carrier;
use refusal::Refusal;
use scheme::of_rounds;
use session_state::Answered;
use slices::{byte_at, part, put};

// Both sessions.
#[derive(Clone, Copy)]
pub struct Ends {
    pub card: Card,
    pub carrier: Carrier,
}

impl Ends {
    // Opens both ends.
    pub fn open(t: Terms, v: &[u8], s: &[u8]) -> Result<Ends, Refused> {
        let card = card::open(t.system, t.scheme, t.rounds, v, s);
        card.answer
            .map_err(|refusal| Refused::of(refusal, "card open"))?;
        let carrier = carrier::open(t.system, t.scheme, t.rounds, v);
        carrier
            .answer
            .map_err(|refusal| Refused::of(refusal, "carrier open"))?;
        Ok(Ends {
            card: card.session,
            carrier: carrier.session,
        })
    }

    // Plays all rounds, and puts their commitments and exchanges one behind the other.
    pub fn play(
        &mut self,
        t: Terms,
        rounds: &[u8],
        commitments: &mut [u8],
        exchanges: &mut [u8],
    ) -> Result<(), Refused>
        requires { (length commitments.old ≡ 343296) × (length exchanges.old ≡ 343296) }
    {
        let each = t.round_length();
        let length = t.passes().commitments_length();
        for r in 0..t.rounds {
            let round = part(rounds, of_rounds(r, each), each);
            let at = of_rounds(r, length);
            self.commit(t, round, &mut commitments[at..at + length])?;
            let at = of_rounds(r, t.passes().exchange_length(t.n, t.m));
            self.exchange(t, round, &mut exchanges[at..])?;
        }
        Ok(())
    }

    // The exchange of a round, α and the challenge being asked in it behind what is lent. Three contracts ask for the room of the longest:
    // as an array of so many bytes it would come from a conversion, with a branch that no run takes.
    fn exchange(&mut self, t: Terms, round: &[u8], exchange: &mut [u8]) -> Result<(), Refused>
        requires { 1341 ≤ length exchange.old }
    {
        let asked = t.passes().lent_length(t.n, t.m);
        if t.passes().has_alpha() {
            self.answer(t, byte_at(round, asked), exchange)?;
            self.reply(t, byte_at(round, asked + 1), exchange)
        } else {
            self.reply(t, byte_at(round, asked), exchange)
        }
    }

    // The card commits, and the carrier takes the commitments.
    fn commit(&mut self, t: Terms, round: &[u8], out: &mut [u8]) -> Result<(), Refused> {
        let lent = part(round, 0, t.passes().lent_length(t.n, t.m));
        let sent = card::commit(self.card, t.system, lent, out);
        self.card_answered(sent, "card commit")?;
        let taken = carrier::take_commitments(self.carrier, out);
        self.carrier_answered(taken, "carrier take commitments")
    }

    // The carrier sets α, the card answers with t1 and e1, and the carrier takes them. All three stand at the front of an exchange.
    fn answer(&mut self, t: Terms, alpha: u8, exchange: &mut [u8]) -> Result<(), Refused>
        requires { 1341 ≤ length exchange.old }
    {
        put(exchange, 0, &[alpha]);
        let end = 1 + usize::from(t.n) + usize::from(t.m);
        let out = &mut exchange[1..end];
        let set = carrier::set_alpha(self.carrier, alpha);
        self.carrier_answered(set, "carrier set alpha")?;
        let sent = card::answer_alpha(self.card, t.system, alpha, out);
        self.card_answered(sent, "card answer alpha")?;
        let taken = carrier::take_middle(self.carrier, out);
        self.carrier_answered(taken, "carrier take t1 and e1")
    }

    // The carrier sets the challenge, the card replies, and the carrier takes the reply. Both stand behind the turn.
    fn reply(&mut self, t: Terms, challenge: u8, exchange: &mut [u8]) -> Result<(), Refused>
        requires { 1341 ≤ length exchange.old }
    {
        let at = t.passes().turn_length(t.n, t.m);
        put(exchange, at, &[challenge]);
        let end = at + 1 + t.passes().reply_length(t.n, t.m);
        let out = &mut exchange[at + 1..end];
        let set = carrier::set_challenge(self.carrier, challenge);
        self.carrier_answered(set, "carrier set challenge")?;
        let sent = card::reply(self.card, challenge, out);
        self.card_answered(sent, "card reply")?;
        let judged = carrier::take_reply(self.carrier, t.system, out);
        self.carrier_answered(judged, "carrier take reply")?;
        Ok(())
    }

    // Takes the card's session after a call, where that was not refused.
    fn card_answered(
        &mut self,
        answered: Answered<Card, ()>,
        call: &'static str,
    ) -> Result<(), Refused> {
        answered
            .answer
            .map_err(|refusal| self.in_round(refusal, call))?;
        self.card = answered.session;
        Ok(())
    }

    // Takes the carrier's session after a call, where that was not refused, and answers what the call did.
    fn carrier_answered<T: Copy + Drop>(
        &mut self,
        answered: Answered<Carrier, T>,
        call: &'static str,
    ) -> Result<T, Refused> {
        let value = answered
            .answer
            .map_err(|refusal| self.in_round(refusal, call))?;
        self.carrier = answered.session;
        Ok(value)
    }

    // A refusal in the round behind those accepted.
    fn in_round(&self, refusal: Refusal, call: &'static str) -> Refused {
        Refused {
            refusal,
            call,
            round: Some(u16::from(self.carrier.accepted) + 1),
        }
    }
}
