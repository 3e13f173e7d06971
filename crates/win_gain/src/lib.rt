// What a window does to a level and to noise.
#![tactic(auto)]

ghost use Rattle.std.specs.Prelude.{◌≡◌};
ghost use Rattle.win_gain.specs.Gain.{summed, gain_of};

// The coherent gain, Σ w / n, and the noise-equivalent bandwidth in bins, n Σ w² / (Σ w)².
#[derive(Clone, Copy)]
pub struct Gain {
    pub gain: f64,
    pub bandwidth: f64,
}

// Both figures from n samples with these sums: of the samples, and of their squares; (0, 0) for none.
pub fn gain_of(n: u64, sum: f64, squares: f64) -> Gain
    ensures { result ≡ summed n sum squares }
{
    if n == 0 {
        return Gain {
            gain: 0.0,
            bandwidth: 0.0,
        };
    }
    let count = std::num::nearest_u64_to_f64(n);
    Gain {
        gain: sum / count,
        bandwidth: count * squares / (sum * sum),
    }
}

// Of a window of f32 samples, summed in f64 by rising index. An empty one gives (0, 0); samples that sum to 0 give an
// infinite bandwidth or NaN. Example: 0, 0.5, 1, 0.5 give 0.5 and 1.5.
pub fn window_gain(w: &[f32]) -> Gain
    ensures { result ≡ gain_of w.now }
{
    let n = w.len();
    let mut sum = 0.0;
    let mut squares = 0.0;
    for i in 0..n {
        let v = std::num::f32_to_f64_with_nan(w[i]);
        sum = sum + v;
        squares = squares + v * v;
    }
    gain_of(n as u64, sum, squares)
}
