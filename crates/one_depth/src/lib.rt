// The functions of rle.rs for one depth each: `decompress` with the bits per pixel as a constant.
#![tactic(auto)]

ghost use Rattle.rle.specs.Report.{Decompresses};

// `decompress_bpp::<24>` stands for `decompress_24_bpp` of rle.rs, and so for 16, 15 and 8, with their parameters. At other depths it
// refuses.
pub fn decompress_bpp<const BPP: usize>(
    src: &[u8],
    dst: &mut [u8],
    width: usize,
    height: usize,
) -> rle::Report
    ensures { Decompresses src.now BPP width height dst.old dst.new result }
{
    rle::decompress(src, dst, width, height, BPP)
}

#[cfg(test)]
mod tests {
    use super::*;

    // A stream of one order, a white pixel.
    fn white<const BPP: usize>() -> [u8; 3] {
        let mut target = [0; 3];
        let _report = decompress_bpp::<BPP>(&[0xFD], &mut target, 1, 1);
        target
    }

    #[test]
    fn white_of_each_depth(rt: HostRuntime) {
        assert_eq!(rt; white::<24>(), [0xFF, 0xFF, 0xFF]);
        assert_eq!(rt; white::<16>(), [0xFF, 0xFF, 0]);
        assert_eq!(rt; white::<15>(), [0xFF, 0x7F, 0]);
        assert_eq!(rt; white::<8>(), [0xFF, 0, 0]);
    }
}
