// An order's header byte: its kind and its own run length, each by one table. They are statics: as constants they would be built anew at
// every lookup.
ghost use Rattle.std.specs.Prelude.{◌≡◌, MatchOption};
ghost use Rattle.definition.specs.Codes.{kind_number, length_number};
ghost use Rattle.rle.specs.Kinds.{number_of};

use crate::kind::Kind;
use crate::length::Length;

// The kind of each header byte: a row for each upper half. Below F0 a row has one kind, and the lower half is a run length.
static KINDS: [[Kind; 16]; 16] = [
    [Kind::BgRun; 16],
    [Kind::BgRun; 16],
    [Kind::FgRun; 16],
    [Kind::FgRun; 16],
    [Kind::FgBgImage; 16],
    [Kind::FgBgImage; 16],
    [Kind::ColorRun; 16],
    [Kind::ColorRun; 16],
    [Kind::ColorImage; 16],
    [Kind::ColorImage; 16],
    [Kind::NoOrder; 16],
    [Kind::NoOrder; 16],
    [Kind::SetFgRun; 16],
    [Kind::SetFgBgImage; 16],
    [Kind::DitheredRun; 16],
    [
        Kind::BgRun,
        Kind::FgRun,
        Kind::FgBgImage,
        Kind::ColorRun,
        Kind::ColorImage,
        Kind::NoOrder,
        Kind::SetFgRun,
        Kind::SetFgBgImage,
        Kind::DitheredRun,
        Kind::SpecialFgBg1,
        Kind::SpecialFgBg2,
        Kind::NoOrder,
        Kind::NoOrder,
        Kind::White,
        Kind::Black,
        Kind::NoOrder,
    ],
];

// The run length that each header byte has itself, 0 where it stands in the bytes after it: as in the definition's table.
static LENGTHS: [u8; 256] = [
    0, 1, 2, 3, 4, 5, 6, 7, 8, 9, 10, 11, 12, 13, 14, 15, 16, 17, 18, 19, 20, 21, 22, 23, 24, 25,
    26, 27, 28, 29, 30, 31, 0, 1, 2, 3, 4, 5, 6, 7, 8, 9, 10, 11, 12, 13, 14, 15, 16, 17, 18, 19,
    20, 21, 22, 23, 24, 25, 26, 27, 28, 29, 30, 31, 0, 8, 16, 24, 32, 40, 48, 56, 64, 72, 80, 88,
    96, 104, 112, 120, 128, 136, 144, 152, 160, 168, 176, 184, 192, 200, 208, 216, 224, 232, 240,
    248, 0, 1, 2, 3, 4, 5, 6, 7, 8, 9, 10, 11, 12, 13, 14, 15, 16, 17, 18, 19, 20, 21, 22, 23, 24,
    25, 26, 27, 28, 29, 30, 31, 0, 1, 2, 3, 4, 5, 6, 7, 8, 9, 10, 11, 12, 13, 14, 15, 16, 17, 18,
    19, 20, 21, 22, 23, 24, 25, 26, 27, 28, 29, 30, 31, 1, 1, 1, 1, 1, 1, 1, 1, 1, 1, 1, 1, 1, 1,
    1, 1, 1, 1, 1, 1, 1, 1, 1, 1, 1, 1, 1, 1, 1, 1, 1, 1, 0, 1, 2, 3, 4, 5, 6, 7, 8, 9, 10, 11, 12,
    13, 14, 15, 0, 8, 16, 24, 32, 40, 48, 56, 64, 72, 80, 88, 96, 104, 112, 120, 0, 1, 2, 3, 4, 5,
    6, 7, 8, 9, 10, 11, 12, 13, 14, 15, 0, 0, 0, 0, 0, 1, 0, 0, 0, 8, 8, 1, 1, 1, 1, 1,
];

pub(crate) fn header_kind(header: u8) -> Kind
    ensures { number_of result ≡ kind_number header }
{
    // One place of the rows joined: of a row, and then of a place in it, an order takes five instructions more.
    KINDS.as_flattened()[usize::from(header)]
}

// The run length that a header has itself, if it has one.
pub(crate) fn own_length(header: u8) -> Option<Length>
    ensures { MatchOption result (length_number header ≡ 0) (λ l. l.pixels ≡ length_number header) }
{
    match LENGTHS[usize::from(header)] {
        0 => None,
        pixels => Some(Length {
            pixels: usize::from(pixels),
        }),
    }
}
