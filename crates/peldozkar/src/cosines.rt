// A window of one's own loaded.
ghost use Rattle.std.specs.Prelude.{◌≡◌, ◌/◌, length};
ghost use Rattle.c_cosines.specs.Loads.{load_bytes, answer_of};

use c_cosines::load::Loaded;

// Loads one to five numbers, eight bytes each, the lowest first, for the window c0 − c1 cos x + c2 cos 2x − c3 cos 3x +
// c4 cos 4x; those not given are 0.
#[unsafe(no_mangle)]
pub extern "C" fn pel_load_cosines(src: &[u8]) -> Loaded
    ensures { result ≡ answer_of (length src.now / 8) (load_bytes src.now) }
{
    c_cosines::load::pel_load_cosines(src)
}
