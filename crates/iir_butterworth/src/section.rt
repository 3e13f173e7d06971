// The numbers of one section: of second order by its quality, or of first order, which an odd order ends with.
ghost use Rattle.std.specs.Prelude.{◌≡◌, ◌≤◌};
ghost use Rattle.iir_butterworth.specs.Butterworth.{angle_of, quality_of, first_order_of, section_at};

use iir_biquad::biquad::{Response, biquad_coefs};
use math_numbers::PI;

// Section i of a filter, counted from 0.
#[derive(Clone, Copy)]
pub(crate) struct Section {
    pub response: Response,
    pub order: u64,
    pub cutoff: f64,
    pub rate: f64,
    pub i: u64,
    ghost order_high: { order ≤ 8 },
    ghost i_high: { i ≤ 8 },
}

// The section of first order, from s = sin w0 and d = 1 + cos w0.
fn first_order(response: Response, s: f64, d: f64) -> [f64; 5]
    ensures { result ≡ first_order_of response s d }
{
    let sum = s + d;
    let a1 = (s - d) / sum;
    match response {
        Response::Lowpass => [s / sum, s / sum, 0.0, a1, 0.0],
        Response::Highpass => [d / sum, -(d / sum), 0.0, a1, 0.0],
        Response::Bandpass => [0.0, 0.0, 0.0, 0.0, 0.0],
        Response::Notch => [0.0, 0.0, 0.0, 0.0, 0.0],
    }
}

impl Section {
    // The angle between the poles and the negative real axis: with k = i + 1 it is (2 k − 1) π / (2 order) of an even
    // order and k π / order of an odd one.
    fn angle(self) -> f64
        ensures { result ≡ angle_of self.order self.i }
    {
        let k = (self.i + 1) as f64;
        let n = self.order as f64;
        if self.order % 2 == 0 {
            return (2.0 * k - 1.0) * PI / (2.0 * n);
        }
        k * PI / n
    }

    // The quality: 1 / (2 cos angle).
    fn quality(self) -> f64
        ensures { result ≡ quality_of self.order self.i }
    {
        1.0 / (2.0 * math_trig::cos::cos(self.angle()))
    }

    // The five numbers. The section is of first order where one pole is left after those before it, which have two
    // each.
    pub(crate) fn numbers(self) -> [f64; 5]
        ensures { result ≡ section_at self.response self.order self.cutoff self.rate self.i }
    {
        if self.order == 2 * self.i + 1 {
            let w0 = 2.0 * PI * self.cutoff / self.rate;
            let s = math_trig::sin::sin(w0);
            return first_order(self.response, s, 1.0 + math_trig::cos::cos(w0));
        }
        let b = biquad_coefs(self.response, self.cutoff, self.quality(), self.rate);
        b.coefs
    }
}
