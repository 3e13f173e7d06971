// The raw taps of a design in a list, and their sum.
ghost use Rattle.std.specs.Prelude.{◌≡◌, true, ◌+◌, ◌-◌, ◌^◌, ◌<◌, ◌≤◌, length, set};
ghost use Rattle.std.specs.Float.{binary64};
ghost use Rattle.laws.specs.Binary64.{◌⊕◌, whole};
ghost use Rattle.laws.specs.Sums.{sum_to};
ghost use Rattle.fir_sinc.specs.Windows.{window_at};
ghost use Rattle.fir_sinc.specs.Taps.{sinc, ideal_at, raw_at};
ghost use Rattle.fir_cache.specs.Cached.{CachesOf, SumCached, Adds};
ghost use Rattle.fir_sinc.specs.Mirrored.{IsMirrored};
ghost use Rattle.fir_sinc.specs.Pending.{Mirrors, PendingTap, Planned};

use super::tap::{ideal_at, offset_at, raw_at};
use super::window::{Window, arguments_of, place_at, values_of, window_at};
use fir_cache::keep;
use math_bessel::Pair;
use math_numbers::{PI, TAP_LIMIT};

// Takes raw tap i up in their sum, and keeps it where `raws` has its place.
fn take(sum: f64, i: u64, v: f64, raws: &mut [f64]) -> f64
    ensures { (result ≡ sum ⊕ v) × (raws.new ≡ set raws.old i v) }
{
    keep(&mut *raws, i, v);
    sum + v
}

// Takes raw taps i and i + 1 up, v and w, and stores what they are without their window, a and b, at the places `last`
// − i and before.
fn take_two(sum: f64, i: u64, v: f64, w: f64, last: u64, a: f64, b: f64, raws: &mut [f64]) -> f64
    requires i_high { i < last }
    requires last_high { last < 2 ^ 25 }
    ensures answer { result ≡ sum ⊕ v ⊕ w }
    ensures buffer { raws.new ≡ set (set (set (set raws.old i v) (i + 1) w) (last - i) a) (last - (i + 1)) b }
{
    let one = take(sum, i, v, &mut *raws);
    let two = take(one, i + 1, w, &mut *raws);
    keep(&mut *raws, last - i, a);
    keep(&mut *raws, last - (i + 1), b);
    two
}

// Whether the sinc at y is seen to be that at x.
fn is_mirrored_sinc(x: f64, y: f64) -> bool
    ensures { result ≡ true → sinc y ≡ sinc x }
{
    if (x == 0.0) | (y == 0.0) {
        return false;
    }
    let a = PI * x;
    let b = PI * y;
    if math_numbers::is_same(b, -a) {
        math_trig::sin::is_opposite(a, b)
    } else {
        false
    }
}

// A tap without its window, and whether its mirror image is at hand and has the same: no `Option`, since the tap is
// there either way.
#[derive(Clone, Copy)]
struct Near {
    ideal: f64,
    same: bool,
}

// Tap i without a window. Its mirror image is tap n − 1 − i; where that is one of the first `half`, `raws` has what it
// is without a window at i, and where the sinc is seen to be even there, the two are the same.
fn ideal_near(fc: f64, n: u64, half: u64, i: u64, raws: &[f64]) -> Near
    requires n_high { n ≤ 2 ^ 24 }
    requires raws_room { n ≤ length raws.now }
    requires i_high { i < n }
    requires mirrors { Mirrors (ideal_at fc n) n half i raws.now }
    ensures ideal { result.ideal ≡ ideal_at fc n i }
    ensures same { result.same ≡ true → IsMirrored fc n half i }
{
    let j = n - 1 - i;
    if j < half {
        if is_mirrored_sinc(offset_at(fc, n, j), offset_at(fc, n, i)) {
            return Near {
                ideal: raws[i as usize],
                same: true,
            };
        }
    }
    Near {
        ideal: ideal_at(fc, n, i),
        same: false,
    }
}

// The windows at taps i and j, worked out together.
fn windows_at(w: Window, i0: f64, n: u64, i: u64, j: u64) -> Pair
    requires n_low { 1 < n }
    requires n_high { n ≤ 2 ^ 24 }
    requires i_high { i < n }
    requires j_high { j < n }
    ensures first { result.first ≡ window_at w i0 n i }
    ensures second { result.second ≡ window_at w i0 n j }
{
    let x = arguments_of(w, place_at(w, n, i), place_at(w, n, j));
    values_of(w, i0, x.first, x.second)
}

// Caches raw tap i. The taps of a filter are mirror images, but their bits needn't be: where a place in the window is
// rounded otherwise on the other side, the last bits part. Where they are seen to be the same, as about three in four
// of Kaiser's taps are, the tap is that of its mirror image. Else it waits for another, or is worked out with the one
// that waits: two windows together cost little more than one. p is the one that waits, n where none does, and at its
// place `raws` has it without its window; the answer is p of the next tap.
fn keep_next(
    fc: f64,
    w: Window,
    i0: f64,
    n: u64,
    half: u64,
    p: u64,
    i: u64,
    raws: &mut [f64],
) -> u64
    requires n_high { n ≤ 2 ^ 24 }
    requires i_high { i < n }
    requires pending_tap { PendingTap (raw_at fc w i0 n) (ideal_at fc n) n half p i raws.old }
    ensures { PendingTap (raw_at fc w i0 n) (ideal_at fc n) n half result (i + 1) raws.new }
{
    let near = ideal_near(fc, n, half, i, &*raws);
    if near.same {
        let j = n - 1 - i;
        if math_numbers::is_same(place_at(w, n, i), place_at(w, n, j)) {
            raws[i as usize] = raws[j as usize];
            return p;
        }
    }
    if p < n {
        let two = windows_at(w, i0, n, p, i);
        raws[p as usize] = raws[p as usize] * two.first;
        raws[i as usize] = near.ideal * two.second;
        n
    } else {
        raws[i as usize] = near.ideal;
        i
    }
}

// Caches the raw taps from `from` on, where `raws` has a place for all and keeps those before.
fn keep_rest(fc: f64, w: Window, i0: f64, n: u64, half: u64, from: u64, raws: &mut [f64])
    requires n_high { n ≤ 2 ^ 24 }
    requires from_high { from ≤ n }
    requires pending_tap { PendingTap (raw_at fc w i0 n) (ideal_at fc n) n half n from raws.old }
    ensures { CachesOf (raw_at fc w i0 n) n raws.new }
{
    let mut p = n;
    for i in from..n {
        p = keep_next(fc, w, i0, n, half, p, i, &mut *raws);
    }
    if p < n {
        raws[p as usize] = raws[p as usize] * window_at(w, i0, n, p);
    }
}

// A sum with the elements of a list from `from` up to n, by rising index.
fn sum_on(begun: f64, list: &[f64], from: u64, n: u64) -> f64
    requires n_high { n ≤ 2 ^ 24 }
    requires list_room { n ≤ length list.now }
    requires from_high { from ≤ n }
    ensures { Adds list.now begun from result n }
{
    let mut sum = begun;
    for i in from..n {
        sum = sum + list[i as usize];
    }
    sum
}

// The sum of n raw taps, from that of the first `from` of them, where `raws` has a place for all: there they are kept
// first.
fn rest_cached(
    fc: f64,
    w: Window,
    i0: f64,
    n: u64,
    half: u64,
    from: u64,
    begun: f64,
    raws: &mut [f64],
) -> f64
    requires n_high { n ≤ 2 ^ 24 }
    requires from_high { from ≤ n }
    requires begun_is { begun ≡ sum_to binary64 (raw_at fc w i0 n) from }
    requires pending_tap { PendingTap (raw_at fc w i0 n) (ideal_at fc n) n half n from raws.old }
    ensures { SumCached (raw_at fc w i0 n) n result raws.new }
{
    keep_rest(fc, w, i0, n, half, from, &mut *raws);
    sum_on(begun, &*raws, from, n)
}

// The same where it hasn't: each is worked out and taken up.
fn rest_taken(fc: f64, w: Window, i0: f64, n: u64, from: u64, begun: f64, raws: &mut [f64]) -> f64
    requires n_high { n ≤ 2 ^ 24 }
    requires from_high { from ≤ n }
    requires sum_cached { SumCached (raw_at fc w i0 n) from begun raws.old }
    ensures { SumCached (raw_at fc w i0 n) n result raws.new }
{
    let mut sum = begun;
    for i in from..n {
        let v = raw_at(fc, w, i0, n, i);
        sum = take(sum, i, v, &mut *raws);
    }
    sum
}

// How a sum of raw taps goes: the first `front` are worked out two at a time, and what tap i is without its window goes
// to the place `last` − i; of the first `half` that is the place of their mirror images.
#[derive(Clone, Copy)]
struct Plan {
    front: u64,
    last: u64,
    half: u64,
}

// A Kaiser design whose raw taps are all kept has only its first half worked out so, since most of the others are then
// at hand; any other all of its taps, and the places are past them.
fn plan_of(w: Window, n: u64, room: u64) -> Plan
    requires { (0 < n) × (n ≤ 2 ^ 24) }
    ensures { Planned n result.front result.last result.half }
{
    if 1 < n {
        if n <= room {
            match w {
                Window::Kaiser(_) => {
                    return Plan {
                        front: n / 2,
                        last: n - 1,
                        half: n / 2 - 1,
                    };
                }
                _ => {}
            }
        }
    }
    Plan {
        front: n,
        last: 2 * n - 1,
        half: 0,
    }
}

// The sum of the raw taps, by rising index from +0. As many of them as `raws` has places are kept there, so that they
// needn't be worked out again. The first are taken two at a time, since two of Kaiser's series cost little more than
// one, and two of his roots less than two. What else they need, and the arguments of the next two, stands before the
// series: a processor mispredicts where these end, and only what comes before that branch is worked out alongside.
// A `while`: it goes two taps a turn, and from where it ends the next loop takes what is left.
fn summed(fc: f64, w: Window, i0: f64, n: u64, raws: &mut [f64]) -> f64
    requires n_low { 0 < n }
    requires n_high { n ≤ 2 ^ 24 }
    ensures { SumCached (raw_at fc w i0 n) n result raws.new }
{
    let plan = plan_of(w, n, raws.len() as u64);
    let front = plan.front;
    let last = plan.last;
    let half = plan.half;
    let begun = arguments_of(w, place_at(w, n, 0), place_at(w, n, 1));
    let mut x = begun.first;
    let mut y = begun.second;
    let mut sum = 0.0;
    let mut i = 0u64;
    while i + 1 < front {
        let next = arguments_of(w, place_at(w, n, i + 2), place_at(w, n, i + 3));
        let a = ideal_at(fc, n, i);
        let b = ideal_at(fc, n, i + 1);
        let two = values_of(w, i0, x, y);
        sum = take_two(
            sum,
            i,
            a * two.first,
            b * two.second,
            last,
            a,
            b,
            &mut *raws,
        );
        x = next.first;
        y = next.second;
        i += 2;
    }
    if n <= raws.len() as u64 {
        rest_cached(fc, w, i0, n, half, i, sum, &mut *raws)
    } else {
        rest_taken(fc, w, i0, n, i, sum, &mut *raws)
    }
}

// The same for any n: 0 for no taps; and for more than a design takes 0, with `raws` as it came.
pub fn total(fc: f64, w: Window, i0: f64, n: u64, raws: &mut [f64]) -> f64
    ensures summed { n ≤ 2 ^ 24 → SumCached (raw_at fc w i0 n) n result raws.new }
    ensures too_many { 2 ^ 24 < n → result ≡ whole 0 }
    ensures too_many_kept { 2 ^ 24 < n → raws.new ≡ raws.old }
{
    if n > TAP_LIMIT {
        return 0.0;
    }
    if n == 0 {
        return 0.0;
    }
    summed(fc, w, i0, n, &mut *raws)
}
