// Expansion, palette look, same picture and the row to show, for C. include/nulambiro.h says what a caller needs to know.
ghost use Rattle.std.specs.Prelude.{◌≡◌, [], ◌∷◌};
ghost use Rattle.color.specs.Colors.{expanded, expansion_in};
ghost use Rattle.color.specs.Look.{lowest_index};
ghost use Rattle.color.specs.SamePicture.{same_picture, picture};
ghost use Rattle.screen.specs.Rows.{part_to_show};
ghost use Rattle.nulambiro.specs.ColorNumbers.{expansion_numbers, index_number, yes_no, part_numbers};

use crate::refusal_numbers;
use color::Shape;
use picture::{Numbers, RleError};

#[tactic(auto, unfolding(crate::specs::ColorNumbers::numbers_of, crate::specs::ColorNumbers::expansion_numbers))]
pub(crate) fn expansion_numbers(expansion: Result<[u8; 3], RleError>) -> [u64; 8]
    ensures { result ≡ expansion_numbers (expansion_in expansion) }
{
    match expansion {
        Ok(bgr) => {
            let [blue, green, red] = bgr.map(u64::from);
            [0, 0, 0, blue, green, red, 0, 0]
        }
        Err(e) => {
            let [refusal, first, second] = refusal_numbers(Numbers::from(e));
            [refusal, first, second, 0, 0, 0, 0, 0]
        }
    }
}

// A pixel travels as three bytes by value: a pointer to them might reach past the end of a picture of fewer bytes a pixel.
#[unsafe(no_mangle)]
pub extern "C" fn nulambiro_expand(
    low: u8,
    middle: u8,
    high: u8,
    bpp: usize,
    palette: &[u8],
    report: &mut [u64; 8],
)
    ensures { report.new ≡ expansion_numbers (expanded palette.now bpp (low ∷ middle ∷ high ∷ [])) }
{
    *report = expansion_numbers(color::expand([low, middle, high], bpp, palette));
}

// 256, which is NULAMBIRO_NO_ENTRY, where there is none: C has no Option.
#[unsafe(no_mangle)]
pub extern "C" fn nulambiro_palette_look(palette: &[u8], blue: u8, green: u8, red: u8) -> usize
    ensures { result ≡ index_number (lowest_index palette.now (blue ∷ green ∷ red ∷ [])) }
{
    color::palette_look(palette, [blue, green, red]).unwrap_or(256)
}

#[unsafe(no_mangle)]
pub extern "C" fn nulambiro_same_picture(
    a: &[u8],
    a_pixels: usize,
    a_width: usize,
    a_height: usize,
    a_bpp: usize,
    b: &[u8],
    b_pixels: usize,
    b_width: usize,
    b_height: usize,
    b_bpp: usize,
    palette: &[u8],
) -> u8
    ensures { result ≡ yes_no (same_picture palette.now (picture a.now a_pixels a_width a_height a_bpp) (picture b.now b_pixels b_width b_height b_bpp)) }
{
    let p = Shape {
        pixels: a_pixels,
        width: a_width,
        height: a_height,
        bpp: a_bpp,
    };
    let q = Shape {
        pixels: b_pixels,
        width: b_width,
        height: b_height,
        bpp: b_bpp,
    };
    u8::from(color::same_picture(a, p, b, q, palette))
}

// The row to show, as a place in one of two slices: a slice can't be handed back to C.
#[tactic(auto, unfolding(crate::specs::ColorNumbers::part_numbers))]
#[unsafe(no_mangle)]
pub extern "C" fn nulambiro_row_to_show(
    new: usize,
    pixels: usize,
    screen: usize,
    bpp: usize,
    width: usize,
    height: usize,
    row: usize,
    report: &mut [u64; 8],
)
    ensures { report.new ≡ part_numbers (part_to_show new pixels screen bpp width height row) }
{
    let p = screen::part_to_show(new, pixels, screen, bpp, width, height, row);
    let (source, start, size) = (p.source as u64, p.start as u64, p.size as u64);
    *report = [source, start, size, 0, 0, 0, 0, 0];
}
