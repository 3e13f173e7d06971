// The shape of Kaiser's window, as exports on numbers.
ghost use Rattle.std.specs.Prelude.{◌≡◌};
ghost use Rattle.math_bessel.specs.Series.{series_of};
ghost use Rattle.fir_length.specs.Kaiser.{beta_of};
ghost use Rattle.c_math.specs.Reports.{series_report};

use verdict::{Reason, Report};

// I0(x): its value, and as the count how many terms it took, 1 to 500. Where it hasn't settled the number is 16, and
// both are told all the same: NaN gives NaN and an infinity gives infinity, after 500 terms; a sum that overflows is
// infinity too. Example: 0 has the value 1 and the count 1; 750 is infinite after 269 terms, with 16.
pub fn pel_bessel_i0(x: f64) -> Report
    ensures { result ≡ series_report (series_of x) }
{
    let s = math_bessel::bessel_i0(x);
    let told = Report::accepted(s.terms, s.sum);
    if s.settled {
        return told;
    }
    Report {
        number: u32::from(Reason::Unsettled),
        ..told
    }
}

// Beta for an attenuation of a dB, 0 below 21 and at a NaN. Never refused. Example: 60 gives 5.65326.
pub fn pel_kaiser_beta(a: f64) -> f64
    ensures { result ≡ beta_of a }
{
    fir_length::beta::kaiser_beta(a)
}
