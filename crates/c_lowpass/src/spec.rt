// The low-pass by its specification, as exports: how many taps it needs, the design judged, and its taps in a buffer.
ghost use Rattle.std.specs.Prelude.{◌≡◌, length};
ghost use Rattle.fir_spec.specs.Spec.{num_taps_of, spec_lowpass_of};
ghost use Rattle.fir_lowpass.specs.Lowpass.{outcome_of};
ghost use Rattle.verdict.specs.Reports.{length_report, outcome_report};
ghost use Rattle.wire.specs.Bytes.{float_bytes};
ghost use Rattle.wire.specs.Writes.{Writes};
ghost use Rattle.c_lowpass.specs.Spec.{spec_of, spec_bytes};

use fir_cache::CACHED;
use fir_design::told;
use fir_spec::DesignSpec;
use ticket_bytes::lowpasses::put_spec;
use verdict::Report;

// How many taps the specification needs, as the count: odd, at most the cap. The transition lies around the cutoff, the
// attenuation in dB beyond it.
// Refused, in this order: 1 a rate that isn't finite and positive; 3 with 0, rate/2, transition where that isn't; 2
// with 0, rate/2 − transition/2, cutoff where the cutoff isn't above 0 and at most that; 4 an attenuation whose size
// isn't finite or is below 8; 3 where 2 transition / rate isn't finite and positive; 3 with 0, rate, transition where
// Kaiser's estimate is above 2^24; 9 more taps than the cap, with both. Example: (1000, 100, 60, 8000, 293) has 293
// taps, and a cap of 292 gives 9.
pub fn pel_spec_num_taps(
    cutoff: f64,
    transition: f64,
    attenuation: f64,
    rate: f64,
    cap: u64,
) -> Report
    ensures { result ≡ length_report (num_taps_of (spec_of cutoff transition attenuation) rate cap) }
{
    let spec = DesignSpec {
        cutoff,
        transition,
        attenuation,
    };
    Report::from(spec.num_taps(rate, cap))
}

// Judges the design of as many taps as the specification needs: their number as the count, the sum that they are
// divided by as the value. Refused as pel_spec_num_taps, and then as pel_lowpass_new with Kaiser's window. Example:
// (1000, 100, 60, 8000, 293) has 293 taps.
pub fn pel_spec_lowpass(
    cutoff: f64,
    transition: f64,
    attenuation: f64,
    rate: f64,
    cap: u64,
) -> Report
    ensures { result ≡ outcome_report (outcome_of (spec_lowpass_of (spec_of cutoff transition attenuation) rate cap)) }
{
    let spec = DesignSpec {
        cutoff,
        transition,
        attenuation,
    };
    told(spec.lowpass(rate, cap))
}

// Fills the buffer with the taps of the design, eight bytes each, the lowest first; answers as pel_spec_lowpass.
// Refused, in this order: 8 a length that isn't a multiple of 8, with the length to the last whole tap and the length,
// in bytes; as pel_spec_num_taps; 8 a buffer for another number of taps, with both numbers of taps; as pel_lowpass_new.
// A refusal leaves the buffer as it came. Example: (1000, 100, 60, 8000, 293) needs 2344 bytes.
pub fn pel_spec_design(
    cutoff: f64,
    transition: f64,
    attenuation: f64,
    rate: f64,
    cap: u64,
    out: &mut [u8],
) -> Report
    ensures { Writes float_bytes (spec_bytes (spec_of cutoff transition attenuation) rate cap (length out.old)) out.old result out.new }
{
    let spec = DesignSpec {
        cutoff,
        transition,
        attenuation,
    };
    let mut raws = [0.0f64; CACHED];
    put_spec(spec, rate, cap, &mut raws, &mut *out)
}
