// How many taps a design needs and by how many half samples it delays, as exports on numbers.
ghost use Rattle.std.specs.Prelude.{◌≡◌};
ghost use Rattle.fir_delay.specs.Delay.{delay_of};
ghost use Rattle.fir_length.specs.Kaiser.{order_of, halfband_len_of};
ghost use Rattle.verdict.specs.Reports.{length_report};
ghost use Rattle.c_math.specs.Reports.{order_report, delay_report};

use verdict::Report;

// Kaiser's estimate for a ripple in dB: the taps as the count, 1 to 16777217 and odd, and beta as the value. Refused: 4
// where the ripple's size isn't finite or is below 8; 3 where 2 transition / rate isn't finite and positive; 3 with 0,
// rate, transition where the estimate is above 2^24. Example: (60, 100, 8000) has 293 taps.
pub fn pel_kaiserord(ripple: f64, transition: f64, rate: f64) -> Report
    ensures { result ≡ order_report (order_of ripple transition rate) }
{
    match fir_length::order::kaiserord(ripple, transition, rate) {
        Ok(order) => Report::accepted(order.taps, order.beta),
        Err(why) => Report::from(why),
    }
}

// The taps of a half-band filter as the count, 3 to 16777219 and 3 mod 4. The arguments stand in another order than
// pel_kaiserord's; refused as that. Example: (100, 60, 8000) has 295 taps.
pub fn pel_halfband_len(transition: f64, attenuation: f64, rate: f64) -> Report
    ensures { result ≡ length_report (halfband_len_of transition attenuation rate) }
{
    Report::from(fir_length::order::halfband_len(transition, attenuation, rate))
}

// The half samples that a linear-phase filter of so many taps delays by, as the count: taps − 1. Refused: 6 for 0 taps.
// Example: 128 taps delay by 127 half samples, which is 63.5 samples.
pub fn pel_delay(taps: u64) -> Report
    ensures { result ≡ delay_report (delay_of taps) }
{
    match fir_delay::delay(taps) {
        Ok(half) => Report::accepted(half.count, 0.0),
        Err(why) => Report::from(why),
    }
}
