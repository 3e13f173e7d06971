// What takes and gives numbers alone: elementary functions, the shape of Kaiser's window, lengths and delays, one Q15
// or Q14 number.
ghost use Rattle.std.specs.Prelude.{◌≡◌};
ghost use Rattle.math_round.specs.Whole.{floor_of, ceil_of, abs_of};
ghost use Rattle.math_sqrt.specs.Sqrt.{sqrt_of};
ghost use Rattle.math_trig.specs.Trig.{sin_of, cos_of};
ghost use Rattle.math_exp.specs.Exp.{exp_of};
ghost use Rattle.math_exp.specs.Pow04.{pow04_of};
ghost use Rattle.fir_length.specs.Kaiser.{order_of, halfband_len_of, beta_of};
ghost use Rattle.c_math.specs.Reports.{order_report, delay_report, series_report, coded_report};
ghost use Rattle.verdict.specs.Reports.{length_report};
ghost use Rattle.fir_delay.specs.Delay.{delay_of};
ghost use Rattle.math_bessel.specs.Series.{series_of};
ghost use Rattle.fmt_q15.specs.Q15.{q15_of, q15_tap_of};
ghost use Rattle.fmt_q14.specs.Q14.{q14_tap_of};

use verdict::Report;

#[unsafe(no_mangle)]
pub extern "C" fn pel_floor(x: f64) -> f64
    ensures { result ≡ floor_of x }
{
    c_math::elementary::pel_floor(x)
}

#[unsafe(no_mangle)]
pub extern "C" fn pel_ceil(x: f64) -> f64
    ensures { result ≡ ceil_of x }
{
    c_math::elementary::pel_ceil(x)
}

#[unsafe(no_mangle)]
pub extern "C" fn pel_fabs(x: f64) -> f64
    ensures { result ≡ abs_of x }
{
    c_math::elementary::pel_fabs(x)
}

#[unsafe(no_mangle)]
pub extern "C" fn pel_sqrt(x: f64) -> f64
    ensures { result ≡ sqrt_of x }
{
    c_math::elementary::pel_sqrt(x)
}

#[unsafe(no_mangle)]
pub extern "C" fn pel_sin(x: f64) -> f64
    ensures { result ≡ sin_of x }
{
    c_math::elementary::pel_sin(x)
}

#[unsafe(no_mangle)]
pub extern "C" fn pel_cos(x: f64) -> f64
    ensures { result ≡ cos_of x }
{
    c_math::elementary::pel_cos(x)
}

#[unsafe(no_mangle)]
pub extern "C" fn pel_exp(x: f64) -> f64
    ensures { result ≡ exp_of x }
{
    c_math::elementary::pel_exp(x)
}

#[unsafe(no_mangle)]
pub extern "C" fn pel_pow04(v: f64) -> f64
    ensures { result ≡ pow04_of v }
{
    c_math::elementary::pel_pow04(v)
}

// Kaiser's estimate for a ripple in dB: the taps as the count, 1 to 16777217 and odd, and beta as the value.
#[unsafe(no_mangle)]
pub extern "C" fn pel_kaiserord(ripple: f64, transition: f64, rate: f64) -> Report
    ensures { result ≡ order_report (order_of ripple transition rate) }
{
    c_math::lengths::pel_kaiserord(ripple, transition, rate)
}

// The taps of a half-band filter as the count, 3 to 16777219 and 3 mod 4.
#[unsafe(no_mangle)]
pub extern "C" fn pel_halfband_len(transition: f64, attenuation: f64, rate: f64) -> Report
    ensures { result ≡ length_report (halfband_len_of transition attenuation rate) }
{
    c_math::lengths::pel_halfband_len(transition, attenuation, rate)
}

// The half samples that a linear-phase filter of so many taps delays by, as the count: taps − 1.
#[unsafe(no_mangle)]
pub extern "C" fn pel_delay(taps: u64) -> Report
    ensures { result ≡ delay_report (delay_of taps) }
{
    c_math::lengths::pel_delay(taps)
}

// I0(x): its value, and as the count how many terms it took, 1 to 500.
#[unsafe(no_mangle)]
pub extern "C" fn pel_bessel_i0(x: f64) -> Report
    ensures { result ≡ series_report (series_of x) }
{
    c_math::shape::pel_bessel_i0(x)
}

// Beta for an attenuation of a dB, 0 below 21 and at a NaN.
#[unsafe(no_mangle)]
pub extern "C" fn pel_kaiser_beta(a: f64) -> f64
    ensures { result ≡ beta_of a }
{
    c_math::shape::pel_kaiser_beta(a)
}

// floor(32768 x + 0.5), held to −32768 and 32767; 0 for a NaN.
#[unsafe(no_mangle)]
pub extern "C" fn pel_q15_from_f64(x: f64) -> i16
    ensures { result ≡ q15_of x }
{
    c_math::single::pel_q15_from_f64(x)
}

// One tap as a Q15 number, as the value.
#[unsafe(no_mangle)]
pub extern "C" fn pel_q15_tap(tap: f64) -> Report
    ensures { result ≡ coded_report (q15_tap_of 0 tap) }
{
    c_math::single::pel_q15_tap(tap)
}

// One coefficient as a Q14 number, floor(16384 x + 0.5), as the value.
#[unsafe(no_mangle)]
pub extern "C" fn pel_q14_from_f64(x: f64) -> Report
    ensures { result ≡ coded_report (q14_tap_of 0 x) }
{
    c_math::single::pel_q14_from_f64(x)
}
