// Expansion of one pixel to blue, green and red.
ghost use Rattle.std.specs.Prelude.{◌≡◌, ◌<◌};
ghost use Rattle.color.specs.Colors.{channel, expand_word, expanded, expansion_in};
ghost use Rattle.color.specs.Promises.{ChannelValues};

use crate::palette::PALETTE_BYTES;
use picture::RleError;

// A channel of N values as a byte. The low bits repeat the high ones, so that the largest value gives 255.
#[tactic(auto, unfolding(crate::specs::Colors::channel))]
pub(crate) fn channel_byte<const N: usize>(c: usize) -> u8
    requires { ChannelValues N × (c < N) }
    ensures { result ≡ channel N c }
{
    if N == 32 {
        (8 * c + c / 4) as u8
    } else {
        (4 * c + c / 16) as u8
    }
}

// The color of a pixel of two bytes, whose green has N values. The channels are taken out of the two bytes one by one: as one number
// they would be read back from memory that was just written, which stalls.
pub(crate) fn from_two_bytes<const N: usize>(pixel: [u8; 3]) -> [u8; 3]
    requires { ChannelValues N }
    ensures { result ≡ expand_word N pixel }
{
    let [low, high, _] = pixel;
    let (low, high) = (usize::from(low), usize::from(high));
    let upper = N / 8;
    [
        channel_byte::<32>(low % 32),
        channel_byte::<N>(low / 32 + high % upper * 8),
        channel_byte::<32>(high / upper % 32),
    ]
}

// The color of a pixel of so many bits, as blue, green and red; or the refusal of the depth, or of a short palette, which is looked at for
// 8 bits alone. By the bits as a number: by the format of the depth that is looked up, pixels of 8 bits take nearly twice the time.
#[tactic(auto, unfolding(crate::specs::Colors::expanded, crate::specs::Colors::color_of, crate::specs::Colors::palette_fits, picture::specs::Sizes::depth_index))]
pub fn expand(pixel: [u8; 3], bpp: usize, palette: &[u8]) -> Result<[u8; 3], RleError>
    ensures { expansion_in result ≡ expanded palette.now bpp pixel }
{
    match bpp {
        8 if palette.len() < PALETTE_BYTES => Err(RleError::BufferTooShort {
            needed: PALETTE_BYTES,
            given: palette.len(),
        }),
        8 => Ok(palette.as_chunks::<3>().0[usize::from(pixel[0])]),
        15 => Ok(from_two_bytes::<32>(pixel)),
        16 => Ok(from_two_bytes::<64>(pixel)),
        24 => Ok(pixel),
        _ => Err(RleError::InvalidBpp { bpp }),
    }
}
