// Pixels of one, two or three bytes, as three bytes by value: low byte first, unused ones zero.
ghost use Rattle.std.specs.Prelude.{◌≡◌, ◌+◌, ◌≤◌, length, drop};
ghost use Rattle.byte_runs.specs.Runs.{Depth};
ghost use Rattle.picture.specs.Pixels.{first_pixel, xor_pixel};
ghost use Rattle.rle.specs.Stored.{store_pixel};

// The pixel of d bytes whose first one is s[at]. By ifs: with a match on d, a dithered run of few pixels of two bytes takes 90
// instructions, and so 62.
pub(crate) fn read_pixel(s: &[u8], d: usize, at: usize) -> [u8; 3]
    requires { Depth d × (at + d ≤ length s.now) }
    ensures { result ≡ first_pixel d (drop at s.now) }
{
    if d == 1 {
        [s[at], 0, 0]
    } else if d == 2 {
        [s[at], s[at + 1], 0]
    } else {
        [s[at], s[at + 1], s[at + 2]]
    }
}

// Stores the d bytes of p from s[at] on, one by one: by `copy_from_slice` of d bytes a white pixel takes 70 instructions, and so 37.
pub(crate) fn write_pixel(s: &mut [u8], d: usize, at: usize, p: [u8; 3])
    requires { Depth d × (at + d ≤ length s.old) }
    ensures { s.new ≡ store_pixel d s.old at p }
{
    s[at] = p[0];
    if d == 1 {
        return;
    }
    s[at + 1] = p[1];
    if d == 2 {
        return;
    }
    s[at + 2] = p[2];
}

pub(crate) fn xor(p: [u8; 3], q: [u8; 3]) -> [u8; 3]
    ensures { result ≡ xor_pixel p q }
{
    [p[0] ^ q[0], p[1] ^ q[1], p[2] ^ q[2]]
}
