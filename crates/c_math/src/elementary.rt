// The elementary functions, as exports on numbers.
ghost use Rattle.std.specs.Prelude.{◌≡◌};
ghost use Rattle.math_round.specs.Whole.{floor_of, ceil_of, abs_of};
ghost use Rattle.math_sqrt.specs.Sqrt.{sqrt_of};
ghost use Rattle.math_trig.specs.Trig.{sin_of, cos_of};
ghost use Rattle.math_exp.specs.Exp.{exp_of};
ghost use Rattle.math_exp.specs.Pow04.{pow04_of};

pub fn pel_floor(x: f64) -> f64
    ensures { result ≡ floor_of x }
{
    math_round::floor::floor(x)
}

pub fn pel_ceil(x: f64) -> f64
    ensures { result ≡ ceil_of x }
{
    math_round::ceil::ceil(x)
}

pub fn pel_fabs(x: f64) -> f64
    ensures { result ≡ abs_of x }
{
    math_round::fabs::fabs(x)
}

pub fn pel_sqrt(x: f64) -> f64
    ensures { result ≡ sqrt_of x }
{
    math_sqrt::sqrt::sqrt(x)
}

pub fn pel_sin(x: f64) -> f64
    ensures { result ≡ sin_of x }
{
    math_trig::sin::sin(x)
}

pub fn pel_cos(x: f64) -> f64
    ensures { result ≡ cos_of x }
{
    math_trig::cos::cos(x)
}

pub fn pel_exp(x: f64) -> f64
    ensures { result ≡ exp_of x }
{
    math_exp::exp::exp(x)
}

pub fn pel_pow04(v: f64) -> f64
    ensures { result ≡ pow04_of v }
{
    math_exp::pow04::pow04(v)
}
