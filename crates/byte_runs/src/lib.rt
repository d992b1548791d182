// Runs of bytes in a target: specs/ has the definition, proofs/ its laws. `copy`, `fill`, `xor` and `mask` write them. Where places go with a
// depth, a struct holds its bounds (`Xored` of `xor`, `Masked` of `mask`, `Span` of `rle`); `Depth` and `Eight` are asked for where it goes
// alone or with one place, where the row above may be missing, and where numbers take fewer instructions (`rle`).
#![tactic(auto)]

ghost use Rattle.std.specs.Prelude.{◌≡◌, true, ℕ, ◌+◌, ◌*◌, ◌/◌, ◌≤◌, ◌<◌, leb, length, slice_index};
ghost use Rattle.byte_runs.specs.Runs.{Depth, both, bytes, each, is_depth, run, turn};

// Whether n pixels of d bytes have a place in `room` bytes. A product by `checked_mul` is plainer, but the compiler does not see that a part
// has room for just that product, so that runs take 5 to 36 instructions more.
pub fn pixels_fit(d: usize, n: usize, room: usize) -> bool
    ensures { result ≡ both (is_depth d) (leb (n * d) room) }
{
    match d {
        1 => n <= room,
        2 => n <= room / 2,
        3 => n <= room / 3,
        _ => false,
    }
}

// The first D bytes of a pixel. `mask` and `xor` have writers of their own, of a block's bytes (`store`) and of a pixel exclusive-or the one
// above (`put_bit`, `xor_pixel`): a public function has no `requires`, so that one for all would test its places at each pixel.
fn put_pixel<const D: usize>(dst: &mut [u8], at: usize, pixel: [u8; 3])
    requires { Depth D × (at + D ≤ length dst.old) }
    ensures { dst.new ≡ run (bytes (each pixel)) at D dst.old }
{
    dst[at..at + D].copy_from_slice(&pixel[..D]);
}

// The first D bytes of a pixel over and over, as often as N bytes hold them, and zeros behind them; zeros alone where D is no depth. By
// `from_fn`, with a remainder for each byte, orders of 16 pixels take some 475 instructions more at 24 bpp.
pub fn pattern<const D: usize, const N: usize>(pixel: [u8; 3]) -> [u8; N]
    ensures whole { is_depth D ≡ true → (k : ℕ) → k < N / D * D → slice_index result k ≡ turn pixel D k }
    ensures rest { (k : ℕ) → (is_depth D ≡ true → N / D * D ≤ k) → slice_index result k ≡ 0 }
{
    let mut t = [0; N];
    if D == 0 || 3 < D {
        return t;
    }
    for i in 0..N / D {
        put_pixel::<D>(&mut t, i * D, pixel);
    }
    t
}
