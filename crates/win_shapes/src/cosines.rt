// Windows of cosines, at the angle x.
ghost use Rattle.std.specs.Prelude.{◌≡◌};
ghost use Rattle.win_shapes.specs.Windows.{hann_at, hamming_at, blackman_at, harris_at, cosines_at};

// The numbers of a sum of cosines. C keeps them too.
#[repr(C)]
#[derive(Clone, Copy)]
pub struct Cosines {
    pub c0: f64,
    pub c1: f64,
    pub c2: f64,
    pub c3: f64,
    pub c4: f64,
}

// 0.5 − 0.5 cos x.
pub fn hann(x: f64) -> f64
    ensures { result ≡ hann_at x }
{
    0.5 - 0.5 * math_trig::cos::cos(x)
}

// 0.54 − 0.46 cos x.
pub fn hamming(x: f64) -> f64
    ensures { result ≡ hamming_at x }
{
    0.54 - 0.46 * math_trig::cos::cos(x)
}

// 0.42 − 0.5 cos x + 0.08 cos 2x.
pub fn blackman(x: f64) -> f64
    ensures { result ≡ blackman_at x }
{
    0.42 - 0.5 * math_trig::cos::cos(x) + 0.08 * math_trig::cos::cos(2.0 * x)
}

// 0.35875 − 0.48829 cos x + 0.14128 cos 2x − 0.01168 cos 3x.
pub fn blackman_harris(x: f64) -> f64
    ensures { result ≡ harris_at x }
{
    0.35875 - 0.48829 * math_trig::cos::cos(x) + 0.14128 * math_trig::cos::cos(2.0 * x)
        - 0.01168 * math_trig::cos::cos(3.0 * x)
}

// c0 − c1 cos x + c2 cos 2x − c3 cos 3x + c4 cos 4x.
pub fn sum_of(c: Cosines, x: f64) -> f64
    ensures { result ≡ cosines_at c x }
{
    c.c0 - c.c1 * math_trig::cos::cos(x) + c.c2 * math_trig::cos::cos(2.0 * x)
        - c.c3 * math_trig::cos::cos(3.0 * x)
        + c.c4 * math_trig::cos::cos(4.0 * x)
}
