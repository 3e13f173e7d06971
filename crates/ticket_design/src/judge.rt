// The judge of tickets, without a buffer: how many taps and what they are divided by, or why not.
ghost use Rattle.std.specs.Prelude.{◌≡◌};
ghost use Rattle.verdict.specs.Outcome.{judged_of};
ghost use Rattle.ticket_design.specs.Design.{judgement_of};

use super::numbers::{spec_for, window_for};
use fir_design::judged;
use fir_gaussian::gaussian_design::Gaussian;
use fir_halfband::HalfbandDesign;
use fir_lowpass::lowpass::Lowpass;
use fir_rrc::design::Rrc;
use ticket_kinds::Ticket;
use verdict::{Judged, Refusal};
use wire::float_of;

// Judges a ticket as it would be designed into a buffer of its own length, with the refusals of its kind.
pub fn judge(t: Ticket) -> Result<Judged, Refusal>
    ensures { result ≡ judged_of (judgement_of t) }
{
    match t {
        Ticket::Lowpass(l) => {
            let window = l.window;
            let w = window_for(window);
            let cutoff = float_of(l.cutoff);
            let rate = float_of(l.rate);
            judged(Lowpass::new(cutoff, rate, w, l.count))
        }
        Ticket::Spec(s) => {
            let spec = spec_for(s);
            let rate = float_of(s.rate);
            judged(spec.lowpass(rate, s.cap))
        }
        Ticket::Halfband(h) => {
            let beta = float_of(h.beta);
            judged(HalfbandDesign::new(beta, h.count))
        }
        Ticket::Gaussian(g) => {
            let bt = float_of(g.bt);
            judged(Gaussian::new(bt, g.samples, g.span))
        }
        Ticket::Rrc(r) => {
            let rolloff = float_of(r.rolloff);
            judged(Rrc::new(rolloff, r.samples, r.span))
        }
        Ticket::Channelizer(c) => {
            let passband = float_of(c.passband);
            let stopband = float_of(c.stopband);
            let attenuation = float_of(c.attenuation);
            judged(fir_channelizer::channelizer_lowpass(
                c.channels,
                c.branch,
                passband,
                stopband,
                attenuation,
            ))
        }
    }
}
