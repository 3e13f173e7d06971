// Functions of one number. A line has the bits of an argument and those of the answer.
use replay_lines::pattern::agrees;
use wire::float_of;

pub(crate) fn judge<F: FnOnce(f64) -> f64>(words: &[u64], function: F) -> Option<bool>
    requires { F.IsAlwaysCallable function }
{
    let [x, answer] = words else {
        return None;
    };
    Some(agrees(function(float_of(*x)), *answer))
}
