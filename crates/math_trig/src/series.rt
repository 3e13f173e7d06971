// The power series of sine and cosine, nested and innermost first; each fraction is one division.
ghost use Rattle.std.specs.Prelude.{◌≡◌};
ghost use Rattle.math_trig.specs.Trig.{sine_series, cosine_series};

// r · (1 + z · (−1/3! + z · (1/5! − ..))), to 1/17!, with z = r · r.
pub(crate) fn sine_series(r: f64) -> f64
    ensures { result ≡ sine_series r }
{
    let z = r * r;
    let s17 = 1.0 / 355687428096000.0;
    let s15 = -1.0 / 1307674368000.0 + z * s17;
    let s13 = 1.0 / 6227020800.0 + z * s15;
    let s11 = -1.0 / 39916800.0 + z * s13;
    let s9 = 1.0 / 362880.0 + z * s11;
    let s7 = -1.0 / 5040.0 + z * s9;
    let s5 = 1.0 / 120.0 + z * s7;
    let s3 = -1.0 / 6.0 + z * s5;
    r * (1.0 + z * s3)
}

// 1 + z · (−1/2! + z · (1/4! − ..)), to 1/16!, with z = r · r.
pub(crate) fn cosine_series(r: f64) -> f64
    ensures { result ≡ cosine_series r }
{
    let z = r * r;
    let c16 = 1.0 / 20922789888000.0;
    let c14 = -1.0 / 87178291200.0 + z * c16;
    let c12 = 1.0 / 479001600.0 + z * c14;
    let c10 = -1.0 / 3628800.0 + z * c12;
    let c8 = 1.0 / 40320.0 + z * c10;
    let c6 = -1.0 / 720.0 + z * c8;
    let c4 = 1.0 / 24.0 + z * c6;
    let c2 = -1.0 / 2.0 + z * c4;
    1.0 + z * c2
}
