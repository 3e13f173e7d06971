// A low-pass whose knob is turned: designed anew with another cutoff or another beta, as its record says the rest. A
// turn that is refused leaves the record.
#![tactic(auto)]

ghost use Rattle.std.specs.Prelude.{◌≡◌};
ghost use Rattle.fir_lowpass.specs.Cached.{PreparesLowpass};
ghost use Rattle.fir_retune.specs.Retune.{new_cutoff_of, new_beta_of, kept_of, verdict_of};

use fir_lowpass::lowpass::{Lowpass, prepare, prepare_with};
use fir_sinc::window::Window;
use verdict::{Reason, Refusal};

// The design with a new cutoff, given with its rate. The series at beta is the one that the record keeps. Refused as a
// low-pass: 1, 2, 6, 4, 16, 10.
// The first raw taps are left in `raws`, as many as it has places.
pub fn prepare_cutoff(
    lp: Lowpass,
    cutoff: f64,
    rate: f64,
    raws: &mut [f64],
) -> Result<Lowpass, Refusal>
    ensures { PreparesLowpass (new_cutoff_of lp cutoff rate) result raws.new }
{
    let w = lp.window;
    prepare_with(cutoff, rate, w, lp.i0, lp.n, &mut *raws)
}

// The design with a new beta, at the cutoff that the record keeps. Refused: 7 a window other than Kaiser's, before
// anything else; then as a low-pass with that cutoff at the rate 1: 2, 6, 4, 16, 10, of which 2 and 6 come only of a
// record that no design gives.
// The first raw taps are left in `raws`, as many as it has places.
pub fn prepare_beta(lp: Lowpass, beta: f64, raws: &mut [f64]) -> Result<Lowpass, Refusal>
    ensures { PreparesLowpass (new_beta_of lp beta) result raws.new }
{
    let w = lp.window;
    match w {
        Window::Kaiser(_) => prepare(lp.fc, 1.0, Window::Kaiser(beta), lp.n, &mut *raws),
        Window::Hann => Err(Refusal::Plain(Reason::Code)),
        Window::Hamming => Err(Refusal::Plain(Reason::Code)),
        Window::Blackman => Err(Refusal::Plain(Reason::Code)),
        Window::Cosines(_) => Err(Refusal::Plain(Reason::Code)),
    }
}

// Turns the knob to a new cutoff, given with its rate; refused as `prepare_cutoff`, with the record as it was.
pub fn new_cutoff(lp: &mut Lowpass, cutoff: f64, rate: f64) -> Result<(), Refusal>
    ensures answer { result ≡ verdict_of (new_cutoff_of lp.old cutoff rate) }
    ensures record_kept { lp.new ≡ kept_of lp.old (new_cutoff_of lp.old cutoff rate) }
{
    let mut none = [0.0f64; 1];
    *lp = prepare_cutoff(*lp, cutoff, rate, &mut none)?;
    Ok(())
}

// Turns the knob to a new beta; refused as `prepare_beta`, with the record as it was.
pub fn new_beta(lp: &mut Lowpass, beta: f64) -> Result<(), Refusal>
    ensures answer { result ≡ verdict_of (new_beta_of lp.old beta) }
    ensures record_kept { lp.new ≡ kept_of lp.old (new_beta_of lp.old beta) }
{
    let mut none = [0.0f64; 1];
    *lp = prepare_beta(*lp, beta, &mut none)?;
    Ok(())
}
