// The shape of Kaiser's window.
ghost use Rattle.std.specs.Prelude.{◌≡◌};
ghost use Rattle.fir_length.specs.Kaiser.{beta_of};

// Beta for an attenuation of a dB: 0.1102 (a − 8.7) above 50; 0.5842 (a − 21)^0.4 + 0.07886 (a − 21) from 21 to 50;
// else 0, also for NaN. Example: 60 dB gives 5.65326.
pub fn kaiser_beta(a: f64) -> f64
    ensures { result ≡ beta_of a }
{
    if a > 50.0 {
        0.1102 * (a - 8.7)
    } else if a >= 21.0 {
        0.5842 * math_exp::pow04::pow04(a - 21.0) + 0.07886 * (a - 21.0)
    } else {
        0.0
    }
}
