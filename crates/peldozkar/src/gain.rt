// The gain of a window.
ghost use Rattle.std.specs.Prelude.{◌≡◌};
ghost use Rattle.c_gain.specs.Level.{gain_report};

use c_gain::level::GainReport;

// The coherent gain of a window of f32 samples, four bytes each, the lowest first: Σ w / n; and its noise-equivalent
// bandwidth in bins: n Σ w² / (Σ w)².
#[unsafe(no_mangle)]
pub extern "C" fn pel_window_gain(src: &[u8]) -> GainReport
    ensures { result ≡ gain_report src.now }
{
    c_gain::level::pel_window_gain(src)
}
