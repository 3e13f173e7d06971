// The kinds of lines: each is a function whose answers the list has.
ghost use Rattle.replay_lines.specs.Kinds.{NamesKind};

// A kind's number stands at the front of its lines.
#[derive(Clone, Copy)]
pub enum Kind {
    Floor = 1,
    Ceil = 2,
    Fabs = 3,
    Sqrt = 4,
    Sin = 5,
    Cos = 6,
    Exp = 7,
    Pow04 = 8,
    BesselI0 = 11,
    KaiserBeta = 12,
    Kaiserord = 13,
    HalfbandLen = 14,
    Delay = 15,
    LowpassNew = 16,
    Lowpass = 17,
    SpecNumTaps = 18,
    SpecLowpass = 19,
    SpecDesign = 20,
    HalfbandNew = 21,
    Halfband = 22,
    GaussianNew = 23,
    Gaussian = 24,
    ChannelizerTaps = 25,
    ChannelizerTapsPerBranch = 26,
    ChannelizerLowpass = 27,
    ChannelizerPrototype = 28,
    Q15FromF64 = 29,
    Q15Tap = 30,
    ToQ15 = 31,
    RrcLen = 32,
    RrcNew = 33,
    Rrc = 34,
    BiquadCoefs = 35,
    ButterworthSos = 36,
    PreemphasisCoefs = 37,
    Q14FromF64 = 38,
    ToQ14 = 39,
    ToF32 = 40,
    ToF32Sos = 41,
    HannF32 = 42,
    HannQ15 = 43,
    BlackmanHarrisF32 = 44,
    BlackmanHarrisQ15 = 45,
    KaiserF32 = 46,
    KaiserQ15 = 47,
    WindowGain = 48,
}

// Every kind, in the order of the numbers, and its name.
pub const NAMES: [(Kind, &str); 46] = [
    (Kind::Floor, "floor"),
    (Kind::Ceil, "ceil"),
    (Kind::Fabs, "fabs"),
    (Kind::Sqrt, "sqrt"),
    (Kind::Sin, "sin"),
    (Kind::Cos, "cos"),
    (Kind::Exp, "exp"),
    (Kind::Pow04, "pow04"),
    (Kind::BesselI0, "bessel_i0"),
    (Kind::KaiserBeta, "kaiser_beta"),
    (Kind::Kaiserord, "kaiserord"),
    (Kind::HalfbandLen, "halfband_len"),
    (Kind::Delay, "delay"),
    (Kind::LowpassNew, "lowpass_new"),
    (Kind::Lowpass, "lowpass"),
    (Kind::SpecNumTaps, "spec_num_taps"),
    (Kind::SpecLowpass, "spec_lowpass"),
    (Kind::SpecDesign, "spec_design"),
    (Kind::HalfbandNew, "halfband_new"),
    (Kind::Halfband, "halfband"),
    (Kind::GaussianNew, "gaussian_new"),
    (Kind::Gaussian, "gaussian"),
    (Kind::ChannelizerTaps, "channelizer_taps"),
    (
        Kind::ChannelizerTapsPerBranch,
        "channelizer_taps_per_branch",
    ),
    (Kind::ChannelizerLowpass, "channelizer_lowpass"),
    (Kind::ChannelizerPrototype, "channelizer_prototype"),
    (Kind::Q15FromF64, "q15_from_f64"),
    (Kind::Q15Tap, "q15_tap"),
    (Kind::ToQ15, "to_q15"),
    (Kind::RrcLen, "rrc_len"),
    (Kind::RrcNew, "rrc_new"),
    (Kind::Rrc, "rrc"),
    (Kind::BiquadCoefs, "biquad_coefs"),
    (Kind::ButterworthSos, "butterworth_sos"),
    (Kind::PreemphasisCoefs, "preemphasis_coefs"),
    (Kind::Q14FromF64, "q14_from_f64"),
    (Kind::ToQ14, "to_q14"),
    (Kind::ToF32, "to_f32"),
    (Kind::ToF32Sos, "to_f32_sos"),
    (Kind::HannF32, "hann_f32"),
    (Kind::HannQ15, "hann_q15"),
    (Kind::BlackmanHarrisF32, "blackman_harris_f32"),
    (Kind::BlackmanHarrisQ15, "blackman_harris_q15"),
    (Kind::KaiserF32, "kaiser_f32"),
    (Kind::KaiserQ15, "kaiser_q15"),
    (Kind::WindowGain, "window_gain"),
];

// No kind has the number.
#[derive(Drop)]
pub struct UnknownKind;

impl TryFrom<usize> for Kind {
    type Error = UnknownKind;

    ghost try_from_gives = { NamesKind };

    fn try_from(number: usize) -> Result<Kind, UnknownKind> {
        let mut kinds = NAMES.iter().map(|(kind, _)| *kind);
        kinds
            .find(|kind| *kind as usize == number)
            .ok_or(UnknownKind)
    }
}
