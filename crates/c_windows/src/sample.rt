// One sample of a window, as a bit pattern.
ghost use Rattle.std.specs.Prelude.{◌≡◌};
ghost use Rattle.wire.specs.Bytes.{put_of};
ghost use Rattle.c_windows.specs.Samples.{width_of, pattern_of};

// What a sample is: an f32 in four bytes, or a Q15 number in two.
#[derive(Clone, Copy)]
pub enum Sample {
    Single,
    Q15,
}

impl Sample {
    // How many bytes a sample has.
    #[tactic(auto, unfolding(crate::specs::Samples::width_of))]
    pub(crate) fn width(self) -> u64
        ensures { result ≡ width_of self }
    {
        match self {
            Sample::Single => 4,
            Sample::Q15 => 2,
        }
    }

    // Stores the sample of a value at `at`; where it doesn't fit wholly, the buffer stays as it is. The width is a
    // constant in each arm, which makes it one store.
    #[tactic(auto, unfolding(crate::specs::Samples::width_of, crate::specs::Samples::pattern_of),)]
    pub(crate) fn store(self, out: &mut [u8], at: usize, x: f64)
        ensures { out.new ≡ put_of (width_of self) out.old at (pattern_of self x) }
    {
        match self {
            Sample::Single => wire::put_u32(&mut *out, at, fmt_f32::narrow::pattern_of(x)),
            Sample::Q15 => wire::put_i16(&mut *out, at, fmt_q15::q15::q15_from_f64(x)),
        }
    }
}
