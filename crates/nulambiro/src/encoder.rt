// Encoding, for C. include/nulambiro.h says what a caller needs to know.
ghost use Rattle.std.specs.Prelude.{◌≡◌, length};
ghost use Rattle.encoding.specs.Bound.{bound};
ghost use Rattle.encoding.specs.Compress.{compressed, length_of, refusal_of, output};
ghost use Rattle.encode.specs.Promises.{refusal_in, length_in};
ghost use Rattle.nulambiro.specs.EncoderNumbers.{numbers_of};

use crate::refusal_numbers;
use encode::CompressError;
use picture::Numbers;

#[tactic(auto, unfolding(crate::specs::EncoderNumbers::numbers_of))]
pub(crate) fn answer_numbers(answer: Result<usize, CompressError>) -> [u64; 8]
    ensures { result ≡ numbers_of (refusal_in answer) (length_in answer) }
{
    match answer {
        Ok(n) => [0, 0, 0, 0, n as u64, 0, 0, 0],
        Err(e) => {
            let [refusal, first, second] = refusal_numbers(Numbers::from(e));
            [0, refusal, first, second, 0, 0, 0, 0]
        }
    }
}

#[unsafe(no_mangle)]
pub extern "C" fn nulambiro_compress(
    src: &[u8],
    dst: &mut [u8],
    width: usize,
    height: usize,
    bpp: usize,
    report: &mut [u64; 8],
)
    ensures dst_after { dst.new ≡ output (compressed (length dst.old) src.now bpp width height) dst.old }
    ensures report_after { report.new ≡ numbers_of (refusal_of (compressed (length dst.old) src.now bpp width height)) (length_of (compressed (length dst.old) src.now bpp width height)) }
{
    *report = answer_numbers(encode::compress(src, dst, width, height, bpp));
}

#[unsafe(no_mangle)]
pub extern "C" fn nulambiro_compress_bound(width: usize, height: usize, bpp: usize) -> usize
    ensures { result ≡ bound bpp width height }
{
    encode::compress_bound(width, height, bpp)
}
