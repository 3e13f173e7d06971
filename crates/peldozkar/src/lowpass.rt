// Low-passes: judged, and their taps in a buffer; by a window's code, a loaded window, a specification or a
// channelizer's edges.
ghost use Rattle.std.specs.Prelude.{◌≡◌, length, Some};
ghost use Rattle.fir_sinc.specs.declared.window.Window.TheVariants as Window;
ghost use Rattle.fir_lowpass.specs.Lowpass.{outcome_of};
ghost use Rattle.verdict.specs.Reports.{outcome_report, length_report};
ghost use Rattle.c_lowpass.specs.Lowpass.{lowpass_coded, lowpass_bytes};
ghost use Rattle.wire.specs.Bytes.{float_bytes};
ghost use Rattle.wire.specs.Writes.{Writes};
ghost use Rattle.ticket_codes.specs.Codes.{window_of};
ghost use Rattle.fir_channelizer.specs.Channelizer.{channelizer_taps_of, branch_of, channelizer_lowpass_of};
ghost use Rattle.c_lowpass.specs.Prototype.{channelizer_bytes};
ghost use Rattle.fir_spec.specs.Spec.{num_taps_of, spec_lowpass_of};
ghost use Rattle.c_lowpass.specs.Spec.{spec_of, spec_bytes};

use verdict::Report;
use win_shapes::cosines::Cosines;

// Judges a design with a window that pel_load_cosines gave, which isn't checked again, and gives its number of taps as
// the count and the sum that they are divided by as the value.
#[unsafe(no_mangle)]
pub extern "C" fn pel_lowpass_cosines_new(
    cutoff: f64,
    rate: f64,
    window: Cosines,
    taps: u64,
) -> Report
    ensures { result ≡ outcome_report (outcome_of (lowpass_coded cutoff rate (Some (Window.Cosines window)) taps)) }
{
    c_lowpass::cosines::pel_lowpass_cosines_new(cutoff, rate, window, taps)
}

// Fills the buffer with the taps of a design, eight bytes each, the lowest first, as many as it has room for; answers
// as pel_lowpass_cosines_new.
#[unsafe(no_mangle)]
pub extern "C" fn pel_lowpass_cosines(
    cutoff: f64,
    rate: f64,
    window: Cosines,
    out: &mut [u8],
) -> Report
    ensures { Writes float_bytes (lowpass_bytes cutoff rate (Some (Window.Cosines window)) (length out.old)) out.old result out.new }
{
    c_lowpass::cosines::pel_lowpass_cosines(cutoff, rate, window, &mut *out)
}

// Judges a design and gives its number of taps as the count and the sum that they are divided by as the value.
#[unsafe(no_mangle)]
pub extern "C" fn pel_lowpass_new(
    cutoff: f64,
    rate: f64,
    window: u64,
    beta: f64,
    taps: u64,
) -> Report
    ensures { result ≡ outcome_report (outcome_of (lowpass_coded cutoff rate (window_of window beta) taps)) }
{
    c_lowpass::lowpass::pel_lowpass_new(cutoff, rate, window, beta, taps)
}

// Fills the buffer with the taps of a design, eight bytes each, the lowest first, as many as it has room for; answers
// as pel_lowpass_new.
#[unsafe(no_mangle)]
pub extern "C" fn pel_lowpass(
    cutoff: f64,
    rate: f64,
    window: u64,
    beta: f64,
    out: &mut [u8],
) -> Report
    ensures { Writes float_bytes (lowpass_bytes cutoff rate (window_of window beta) (length out.old)) out.old result out.new }
{
    c_lowpass::lowpass::pel_lowpass(cutoff, rate, window, beta, &mut *out)
}

// How many taps Kaiser's estimate has for band edges in channel spacings and an attenuation in dB, as the count; not
// made odd.
#[unsafe(no_mangle)]
pub extern "C" fn pel_channelizer_taps(
    channels: u64,
    passband: f64,
    stopband: f64,
    attenuation: f64,
) -> Report
    ensures { result ≡ length_report (channelizer_taps_of channels passband stopband attenuation) }
{
    c_lowpass::prototype::pel_channelizer_taps(channels, passband, stopband, attenuation)
}

// How many taps each branch needs, as the count: taps / channels rounded up, refused as pel_channelizer_taps.
#[unsafe(no_mangle)]
pub extern "C" fn pel_channelizer_taps_per_branch(
    channels: u64,
    passband: f64,
    stopband: f64,
    attenuation: f64,
) -> Report
    ensures { result ≡ length_report (branch_of channels (channelizer_taps_of channels passband stopband attenuation)) }
{
    c_lowpass::prototype::pel_channelizer_taps_per_branch(channels, passband, stopband, attenuation)
}

// Judges the prototype of channels · branch taps: their number as the count, the sum that they are divided by as the
// value.
#[unsafe(no_mangle)]
pub extern "C" fn pel_channelizer_lowpass(
    channels: u64,
    branch: u64,
    passband: f64,
    stopband: f64,
    attenuation: f64,
) -> Report
    ensures { result ≡ outcome_report (outcome_of (channelizer_lowpass_of channels branch passband stopband attenuation)) }
{
    c_lowpass::prototype::pel_channelizer_lowpass(channels, branch, passband, stopband, attenuation)
}

// Fills the buffer with the taps of the prototype, eight bytes each, the lowest first; answers as
// pel_channelizer_lowpass.
#[unsafe(no_mangle)]
pub extern "C" fn pel_channelizer_prototype(
    channels: u64,
    branch: u64,
    passband: f64,
    stopband: f64,
    attenuation: f64,
    out: &mut [u8],
) -> Report
    ensures { Writes float_bytes (channelizer_bytes channels branch passband stopband attenuation (length out.old)) out.old result out.new }
{
    c_lowpass::prototype::pel_channelizer_prototype(
        channels,
        branch,
        passband,
        stopband,
        attenuation,
        &mut *out,
    )
}

// How many taps the specification needs, as the count: odd, at most the cap.
#[unsafe(no_mangle)]
pub extern "C" fn pel_spec_num_taps(
    cutoff: f64,
    transition: f64,
    attenuation: f64,
    rate: f64,
    cap: u64,
) -> Report
    ensures { result ≡ length_report (num_taps_of (spec_of cutoff transition attenuation) rate cap) }
{
    c_lowpass::spec::pel_spec_num_taps(cutoff, transition, attenuation, rate, cap)
}

// Judges the design of as many taps as the specification needs: their number as the count, the sum that they are
// divided by as the value.
#[unsafe(no_mangle)]
pub extern "C" fn pel_spec_lowpass(
    cutoff: f64,
    transition: f64,
    attenuation: f64,
    rate: f64,
    cap: u64,
) -> Report
    ensures { result ≡ outcome_report (outcome_of (spec_lowpass_of (spec_of cutoff transition attenuation) rate cap)) }
{
    c_lowpass::spec::pel_spec_lowpass(cutoff, transition, attenuation, rate, cap)
}

// Fills the buffer with the taps of the design, eight bytes each, the lowest first; answers as pel_spec_lowpass.
#[unsafe(no_mangle)]
pub extern "C" fn pel_spec_design(
    cutoff: f64,
    transition: f64,
    attenuation: f64,
    rate: f64,
    cap: u64,
    out: &mut [u8],
) -> Report
    ensures { Writes float_bytes (spec_bytes (spec_of cutoff transition attenuation) rate cap (length out.old)) out.old result out.new }
{
    c_lowpass::spec::pel_spec_design(cutoff, transition, attenuation, rate, cap, &mut *out)
}
