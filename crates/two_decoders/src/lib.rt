// Decoding one stream by both decoders: that they give the same, as the contract of two calls.
#![tactic(auto)]

ghost use Rattle.rle.specs.Guarantees.{SameDecoding};

// The report of the fast decoder, then that of the plain one. Width, height and depth come one by one, as to `decompress`. The crate
// `two_targets` has two calls too; its promise is another one, of two targets.
pub fn decompress_both(
    src: &[u8],
    fast: &mut [u8],
    plain: &mut [u8],
    width: usize,
    height: usize,
    bpp: usize,
) -> (rle::Report, rle::Report)
    ensures { SameDecoding src.now bpp width height fast.old fast.new result.0 plain.old plain.new result.1 }
{
    let fast = rle::decompress(src, fast, width, height, bpp);
    let plain = rle::plain::decompress(src, plain, width, height, bpp);
    (fast, plain)
}
