// Replays the stored list of the Rust's answers: what the port answers to the same questions is compared with them by
// bits.
#![tactic(auto)]

mod converted;
mod designs;
mod elementary;
mod lengths;
mod level;
mod lowpasses;
mod single;
mod windows;
mod written;

use c_math::shape::pel_kaiser_beta;
use c_windows::samples::{
    pel_blackman_harris_f32, pel_blackman_harris_q15, pel_hann_f32, pel_hann_q15, pel_kaiser_f32,
    pel_kaiser_q15,
};
use math_exp::exp::exp;
use math_exp::pow04::pow04;
use math_round::ceil::ceil;
use math_round::fabs::fabs;
use math_round::floor::floor;
use math_sqrt::sqrt::sqrt;
use math_trig::cos::cos;
use math_trig::sin::sin;
use replay_lines::kind::Kind;
use replay_lines::line::WORDS;
use replay_lines::source::TakesLines;
use replay_lines::tally::Tally;
use replay_lines::{line, source};

// Whether the port answers as the words of a line of the kind tell; nothing where they cannot be read.
fn judge(kind: Kind, words: &[u64]) -> Option<bool> {
    match kind {
        Kind::Floor => elementary::judge(words, floor),
        Kind::Ceil => elementary::judge(words, ceil),
        Kind::Fabs => elementary::judge(words, fabs),
        Kind::Sqrt => elementary::judge(words, sqrt),
        Kind::Sin => elementary::judge(words, sin),
        Kind::Cos => elementary::judge(words, cos),
        Kind::Exp => elementary::judge(words, exp),
        Kind::Pow04 => elementary::judge(words, pow04),
        Kind::BesselI0 => lengths::bessel_i0(words),
        Kind::KaiserBeta => elementary::judge(words, pel_kaiser_beta),
        Kind::Kaiserord => lengths::kaiserord(words),
        Kind::HalfbandLen => lengths::halfband_len(words),
        Kind::Delay => lengths::delay(words),
        Kind::LowpassNew => lowpasses::lowpass_new(words),
        Kind::Lowpass => written::lowpass(words),
        Kind::SpecNumTaps => lowpasses::spec_num_taps(words),
        Kind::SpecLowpass => lowpasses::spec_lowpass(words),
        Kind::SpecDesign => written::spec_design(words),
        Kind::HalfbandNew => designs::halfband_new(words),
        Kind::Halfband => written::halfband(words),
        Kind::GaussianNew => designs::gaussian_new(words),
        Kind::Gaussian => written::gaussian(words),
        Kind::ChannelizerTaps => designs::channelizer_taps(words),
        Kind::ChannelizerTapsPerBranch => designs::channelizer_taps_per_branch(words),
        Kind::ChannelizerLowpass => designs::channelizer_lowpass(words),
        Kind::ChannelizerPrototype => written::channelizer_prototype(words),
        Kind::Q15FromF64 => single::q15_from_f64(words),
        Kind::Q15Tap => single::q15_tap(words),
        Kind::ToQ15 => converted::to_q15(words),
        Kind::RrcLen => designs::rrc_len(words),
        Kind::RrcNew => designs::rrc_new(words),
        Kind::Rrc => written::rrc(words),
        Kind::BiquadCoefs => written::biquad_coefs(words),
        Kind::ButterworthSos => written::butterworth_sos(words),
        Kind::PreemphasisCoefs => written::preemphasis_coefs(words),
        Kind::Q14FromF64 => single::q14_from_f64(words),
        Kind::ToQ14 => converted::to_q14(words),
        Kind::ToF32 => converted::to_f32(words),
        Kind::ToF32Sos => converted::to_f32_sos(words),
        Kind::HannF32 => windows::judge(words, 4, pel_hann_f32),
        Kind::HannQ15 => windows::judge(words, 2, pel_hann_q15),
        Kind::BlackmanHarrisF32 => windows::judge(words, 4, pel_blackman_harris_f32),
        Kind::BlackmanHarrisQ15 => windows::judge(words, 2, pel_blackman_harris_q15),
        Kind::KaiserF32 => windows::judge_kaiser(words, 4, pel_kaiser_f32),
        Kind::KaiserQ15 => windows::judge_kaiser(words, 2, pel_kaiser_q15),
        Kind::WindowGain => level::window_gain(words),
    }
}

// The kind of a line, and whether the port answers as it tells.
fn judge_line(text: &[u8], room: &mut [u64; WORDS]) -> Option<(Kind, bool)> {
    let line = line::take_apart(text, room)?;
    let is_same = judge(line.kind, line.words.as_slice())?;
    Some((line.kind, is_same))
}

// What the lines came to so far, and the room for the words of one.
#[derive(Drop)]
struct Replay<'a, P> {
    rt: &'a P,
    tally: Tally,
    room: [u64; WORDS],
}

impl<P: Print> TakesLines for Replay<'_, P> {
    fn take(&mut self, text: &[u8]) {
        self.tally.note(self.rt, judge_line(text, &mut self.room));
    }
}

fn main(rt: HostRuntime) {
    let mut replay = Replay {
        rt: &rt,
        tally: Tally::default(),
        room: [0; WORDS],
    };
    source::for_each_line(&rt, &mut rt.stdin(), &mut replay);
    replay.tally.print(&rt);
}
