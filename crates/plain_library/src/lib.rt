// The plain decoder for C, as a library of its own: beside the other decoder's functions in one library it would change how those are
// compiled. The bench times both. C's parameters are numbers, one by one.
#![tactic(auto)]

ghost use Rattle.std.specs.Prelude.{◌≡◌, ◌++◌, ◌*◌, length, drop};
ghost use Rattle.picture.specs.Pixels.{bytes_of};
ghost use Rattle.definition.specs.Decode.{result_in};

// Decodes the stream `src` of a picture into the first bytes of `dst`, of which the bytes after the painted pixels stay. Returns how many
// pixels were painted.
#[unsafe(no_mangle)]
pub extern "C" fn nulambiro_plain_decompress(
    src: &[u8],
    dst: &mut [u8],
    width: usize,
    height: usize,
    bpp: usize,
) -> usize
    ensures value { result ≡ length (result_in (length dst.old) src.now bpp width height).painted }
    ensures dst_after { dst.new ≡ bytes_of (result_in (length dst.old) src.now bpp width height).bytes (result_in (length dst.old) src.now bpp width height).painted ++ drop (result * (result_in (length dst.old) src.now bpp width height).bytes) dst.old }
{
    rle::plain::decompress(src, dst, width, height, bpp).pixels
}
