// A row to show: a part of the new picture, or of the one on screen.
//
// What it is, is defined in specs/Rows.antt. The numbers of the pictures come one by one, as from C, which calls `part_to_show`.
#![tactic(auto)]

ghost use Rattle.std.specs.Prelude.{◌≡◌};
ghost use Rattle.screen.specs.Rows.{part_of, part_to_show, place_to_show, row_to_show};

// The picture that a part is of.
#[derive(Clone, Copy, Debug, PartialEq, Eq)]
pub enum Source {
    New,
    Screen,
}

// A part of the new picture or of the one on screen, in bytes.
#[derive(Clone, Copy, Debug, PartialEq, Eq)]
pub struct Part {
    pub source: Source,
    pub start: usize,
    pub size: usize,
}

impl Part {
    // Where there is no row to show. A part of no bytes: `part_to_show` can't fail, and C takes its numbers as they are.
    pub const EMPTY: Part = Part {
        source: Source::New,
        start: 0,
        size: 0,
    };
}

// Where row r stands, in slices of `new` and `screen` bytes. For callers that can't be given a slice.
#[tactic(auto, unfolding(crate::specs::Rows::part_to_show, crate::specs::Rows::part_in, picture::specs::Sizes::has_space))]
pub fn part_to_show(
    new: usize,
    pixels: usize,
    screen: usize,
    bpp: usize,
    width: usize,
    height: usize,
    r: usize,
) -> Part
    ensures { part_of result ≡ part_to_show new pixels screen bpp width height r }
{
    match picture::picture_size(width, height, bpp) {
        // With r below the height, r + 1 fits.
        Ok(bytes) if bytes <= new && bytes <= screen && r < height => {
            let row = width * picture::bytes_per_pixel(bpp);
            let painted = (r + 1) * width <= pixels;
            Part {
                source: if painted { Source::New } else { Source::Screen },
                start: r * row,
                size: row,
            }
        }
        _ => Part::EMPTY,
    }
}

// Row r of the new picture, of which so many pixels are painted, or the same part of the one on screen: its bytes, and of which of the
// two slices it is a part, told by its place in memory.
pub fn row_to_show<'a>(
    new: &'a [u8],
    pixels: usize,
    screen: &'a [u8],
    bpp: usize,
    width: usize,
    height: usize,
    r: usize,
) -> &'a [u8]
    ensures bytes { result.now ≡ row_to_show new.now pixels screen.now bpp width height r }
    ensures place { result.ref_ptr ≡ place_to_show new.entry pixels screen.entry bpp width height r }
{
    let part = part_to_show(new.len(), pixels, screen.len(), bpp, width, height, r);
    let from = part.start;
    let to = from + part.size;
    match part.source {
        Source::New => &new[from..to],
        Source::Screen => &screen[from..to],
    }
}
