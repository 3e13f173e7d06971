// The exponential of a number from −700 to 0.
ghost use Rattle.std.specs.Prelude.{◌≡◌};
ghost use Rattle.laws.specs.Floor.{floor_z};
ghost use Rattle.math_exp.specs.Exp.{exp_series, two_to, exp_of};
ghost use Rattle.math_exp.specs.ExpLaws.{Below};

const LN_2: f64 = 0.6931471805599453;

// ln 2 in two parts, the first short enough that its product with a number of doublings is exact.
const L1: f64 = 2977044471.0 / 4294967296.0;

const L2: f64 = 3691024475790907.0 / 19342813113834066795298816.0;

// 1 + r · (1 + r · (1/2! + r · (1/3! + ..))), to r^13/13!, innermost first; each fraction is one division.
fn exp_series(r: f64) -> f64
    ensures { result ≡ exp_series r }
{
    let s13 = 1.0 / 6227020800.0;
    let s12 = 1.0 / 479001600.0 + r * s13;
    let s11 = 1.0 / 39916800.0 + r * s12;
    let s10 = 1.0 / 3628800.0 + r * s11;
    let s9 = 1.0 / 362880.0 + r * s10;
    let s8 = 1.0 / 40320.0 + r * s9;
    let s7 = 1.0 / 5040.0 + r * s8;
    let s6 = 1.0 / 720.0 + r * s7;
    let s5 = 1.0 / 120.0 + r * s6;
    let s4 = 1.0 / 24.0 + r * s5;
    let s3 = 1.0 / 6.0 + r * s4;
    let s2 = 1.0 / 2.0 + r * s3;
    let s1 = 1.0 + r * s2;
    1.0 + r * s1
}

// 2^k, for a whole number k from −1022 to 0: the exponent's field is k + 1023, and no digit is set.
fn two_to(k: f64) -> f64
    requires { Below k }
    ensures { result ≡ two_to (floor_z k) }
{
    let n = std::num::truncating_f64_to_u64(-k);
    f64::from_bits((1023 - n) * 4503599627370496)
}

// e^x for x from −700 to 0, limits included; 0 below −700, NaN above 0 and at a NaN.
pub fn exp(x: f64) -> f64
    ensures { result ≡ exp_of x }
{
    if x < -700.0 {
        return 0.0;
    }
    if x <= 0.0 {
        let k = math_round::floor::floor(x * (1.0 / LN_2) + 0.5);
        let r = x - k * L1 - k * L2;
        exp_series(r) * two_to(k)
    } else {
        0.0 / 0.0
    }
}
