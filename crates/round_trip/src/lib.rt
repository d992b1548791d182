// Encoding a picture and decoding its stream: that every picture comes back, as the contract of the two calls.
#![tactic(auto)]

ghost use Rattle.std.specs.Prelude.{◌≡◌, take};
ghost use Rattle.rle.specs.Report.{Decompresses};
ghost use Rattle.encode.specs.Promises.{Compresses, length_in};
ghost use Rattle.round_trip.specs.Guarantee.{RoundTrip};

use encode::CompressError;

#[derive(Clone, Copy)]
pub struct Trip {
    pub answer: Result<usize, CompressError>,
    pub report: rle::Report,
}

// Encodes the picture that `src` starts with into `stream`, and decodes what was written there into `dst`. Width, height and depth come
// one by one, as to `decompress`.
pub fn encode_and_decode(
    src: &[u8],
    stream: &mut [u8],
    dst: &mut [u8],
    width: usize,
    height: usize,
    bpp: usize,
) -> Trip
    ensures compresses { Compresses src.now bpp width height stream.old stream.new result.answer }
    ensures decompresses { Decompresses (take (length_in result.answer) stream.new) bpp width height dst.old dst.new result.report }
    ensures round_trip { RoundTrip src.now bpp width height stream.old dst.old dst.new result.answer result.report }
{
    let answer = encode::compress(src, stream, width, height, bpp);
    let n = answer.unwrap_or(0);
    let report = rle::decompress(&stream[..n], dst, width, height, bpp);
    Trip { answer, report }
}
