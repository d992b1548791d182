// Headers and run lengths, in the shortest form.
ghost use Rattle.std.specs.Prelude.{◌≡◌, ◌≤◌, length};
ghost use Rattle.encoding.specs.Bound as bound;

use crate::order::{MAX_RUN, Order};

// The longest run length in a header, and in the byte after it.
const IN_HEADER: usize = 31;

const IN_BYTE: usize = 287;

// Bytes of a header and run length of n pixels; none for no pixels.
pub(crate) fn head_len(n: usize) -> usize
    ensures { result ≡ bound.head_size n }
{
    match n {
        0 => 0,
        1..=IN_HEADER => 1,
        ..=IN_BYTE => 2,
        _ => 3,
    }
}

// The most bytes that the stream of n pixels has over those of the pixels themselves.
pub(crate) fn overhead(bytes: usize, n: usize) -> usize
    requires { n ≤ 67108864 }
    ensures { result ≡ bound.overhead bytes n }
{
    if bytes == 1 {
        return (n + 3) / 35 + 1;
    }
    3 * (n / MAX_RUN) + head_len(n % MAX_RUN)
}

impl Order {
    ghost use Rattle.definition.specs.Codes.{kind_row};
    ghost use Rattle.encoding.specs.Heads.{head_bytes};
    ghost use Rattle.encode.specs.Orders.{kind_number};
    ghost use Rattle.encode.specs.Writing.{Writes};

    // Writes its header and run length to the front of dst; how many bytes they are.
    pub(crate) fn put_head(self, dst: &mut [u8]) -> usize
        requires { length (head_bytes (kind_row (kind_number self.kind)) self.pixels) ≤ length dst.old }
        ensures { Writes (head_bytes (kind_row (kind_number self.kind)) self.pixels) dst.old dst.new result }
    {
        let kind = self.kind.number();
        let n = self.pixels;
        match n {
            ..=IN_HEADER => {
                dst[0] = kind * 32 + n as u8;
                1
            }
            ..=IN_BYTE => {
                dst[0] = kind * 32;
                dst[1] = (n - 32) as u8;
                2
            }
            _ => {
                let [low, high] = (n as u16).to_le_bytes();
                dst[0] = 0xF0 + kind;
                dst[1] = low;
                dst[2] = high;
                3
            }
        }
    }
}
