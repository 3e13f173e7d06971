// The gain and the bandwidth of a window. A line has its length in bytes, the patterns of its whole samples, and the
// words of the answer in the order of its fields.
use c_gain::level::pel_window_gain;
use replay_lines::told::Field;
use replay_lines::{offered, told};

pub(crate) fn window_gain(words: &[u64]) -> Option<bool> {
    let (window, answer) = offered::buffer(words, 4)?;
    let g = pel_window_gain(window.as_slice());
    let fields = [
        Field::Number(g.number as u64),
        Field::Number(g.carries as u64),
        Field::Number(g.expected),
        Field::Number(g.given),
        Field::Number(g.count),
        Field::Float(g.gain),
        Field::Float(g.bandwidth),
    ];
    told::judge_fields(&fields, answer)
}
