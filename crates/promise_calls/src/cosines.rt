// A window of cosines loaded, and a low-pass with it: demands 1 and 3, also after a conversion to Q15; and that Hann's,
// Hamming's and Blackman's numbers are taken and give what their codes give.
ghost use Rattle.std.specs.Prelude.{length, Some};
ghost use Rattle.verdict.specs.Outcome.{answered};
ghost use Rattle.wire.specs.Bytes.{float_bytes};
ghost use Rattle.fir_sinc.specs.declared.window.Window.TheVariants as Window;
ghost use Rattle.fir_lowpass.specs.Lowpass as Lowpass;
ghost use Rattle.c_lowpass.specs.Lowpass.{lowpass_coded, lowpass_bytes};
ghost use Rattle.promise_refusals.specs.Demand.{Numbered, FilledOrKept, LoadedOrNone};
ghost use Rattle.promise_totals.specs.Written.{Totals};
ghost use Rattle.promise_totals.specs.Filter.{Filters};
ghost use Rattle.promise_cosines.specs.Loaded.{TakesBuiltIns, WritesBuiltIns};

use super::filters::Filter;
use c_cosines::load::Loaded;
use c_formats::buffers::pel_to_q15;
use verdict::Report;
use win_shapes::cosines::Cosines;

pub fn load_cosines(src: &[u8]) -> Loaded
    ensures loaded_or_none { LoadedOrNone src.now result }
    ensures takes_built_ins { TakesBuiltIns src.now result }
{
    c_cosines::load::pel_load_cosines(src)
}

pub fn lowpass_cosines(cutoff: f64, rate: f64, window: Cosines, out: &mut [u8]) -> Report
    ensures filled_or_kept { FilledOrKept float_bytes (lowpass_bytes cutoff rate (Some (Window.Cosines window)) (length out.old)) out.old result out.new }
    ensures totals { Totals result out.new }
    ensures writes_built_ins { WritesBuiltIns cutoff rate window out.old result out.new }
{
    c_lowpass::cosines::pel_lowpass_cosines(cutoff, rate, window, &mut *out)
}

pub fn lowpass_cosines_new(cutoff: f64, rate: f64, window: Cosines, taps: u64) -> Report
    ensures { Numbered (answered (Lowpass.outcome_of (lowpass_coded cutoff rate (Some (Window.Cosines window)) taps))) result.number }
{
    c_lowpass::cosines::pel_lowpass_cosines_new(cutoff, rate, window, taps)
}

pub fn lowpass_cosines_q15(
    cutoff: f64,
    rate: f64,
    window: Cosines,
    taps: &mut [u8],
    out: &mut [u8],
) -> Filter
    ensures { Filters result.design taps.new result.conversion out.new }
{
    let design = c_lowpass::cosines::pel_lowpass_cosines(cutoff, rate, window, &mut *taps);
    let conversion = pel_to_q15(&*taps, &mut *out);
    Filter { design, conversion }
}
