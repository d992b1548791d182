// Decoding one stream into two targets: the guarantee that no old byte shows, as the contract of two calls of `decompress`.
#![tactic(auto)]

ghost use Rattle.rle.specs.Report.{Decompresses};
ghost use Rattle.rle.specs.Guarantees.{HasSpace, NoOldByte};

// The reports are in the order of the targets. Width, height and depth come one by one, as to `decompress`. The crate `two_decoders` has
// two calls too; its promise is another one, of the two decoders.
pub fn decompress_twice(
    src: &[u8],
    first: &mut [u8],
    second: &mut [u8],
    width: usize,
    height: usize,
    bpp: usize,
) -> (rle::Report, rle::Report)
    ensures first { Decompresses src.now bpp width height first.old first.new result.0 }
    ensures second { Decompresses src.now bpp width height second.old second.new result.1 }
    ensures no_old_byte { HasSpace first.old bpp width height → HasSpace second.old bpp width height → NoOldByte src.now bpp width height first.old first.new result.0 second.old second.new result.1 }
{
    let a = rle::decompress(src, first, width, height, bpp);
    let b = rle::decompress(src, second, width, height, bpp);
    (a, b)
}
