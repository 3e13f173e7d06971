// The bytes of an element into a buffer, at proved places.
ghost use Rattle.std.specs.Prelude.{◌≡◌, ◌+◌, ◌≤◌, length};
ghost use Rattle.wire.specs.Bytes.{put_of};

// Stores two bytes at a proved place, which become one store.
pub(crate) fn put_two(out: &mut [u8], at: usize, n: u64)
    requires { at + 2 ≤ length out.old }
    ensures { out.new ≡ put_of 2 out.old at n }
{
    out[at] = (n % 256) as u8;
    out[at + 1] = (n / 256 % 256) as u8;
}

// Stores four.
pub(crate) fn put_four(out: &mut [u8], at: usize, n: u64)
    requires { at + 4 ≤ length out.old }
    ensures { out.new ≡ put_of 4 out.old at n }
{
    out[at] = (n % 256) as u8;
    out[at + 1] = (n / 256 % 256) as u8;
    out[at + 2] = (n / 256 / 256 % 256) as u8;
    out[at + 3] = (n / 256 / 256 / 256 % 256) as u8;
}
