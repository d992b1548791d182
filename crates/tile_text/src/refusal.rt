// Why a text has no whole tile, and the numbers in which that is printed.
ghost use Rattle.tile_text.specs.Promises.{Numbered};

use picture::{Numbers, RleError};

#[derive(Clone, Copy, Debug, PartialEq, Eq)]
pub(crate) enum Refusal {
    NotATileText,
    // The picture or the stream.
    TooLarge,
    Decoder(RleError),
}

// By hand: a derived one has no contract.
impl From<RleError> for Refusal {
    ghost use Rattle.std.specs.Prelude.{◌≡◌};
    ghost use Rattle.tile_text.specs.declared.refusal.Refusal.TheVariants.{Decoder};

    ghost from_gives = { λ e r. r ≡ Decoder e };

    fn from(e: RleError) -> Refusal {
        Refusal::Decoder(e)
    }
}

// The decoder has 1 to 8, and the values are its alone.
impl From<Refusal> for Numbers {
    ghost from_gives = { λ e r. Numbered e r };

    fn from(e: Refusal) -> Numbers {
        match e {
            Refusal::Decoder(e) => Numbers::from(e),
            Refusal::NotATileText => Numbers {
                refusal: 9,
                ..Numbers::default()
            },
            Refusal::TooLarge => Numbers {
                refusal: 10,
                ..Numbers::default()
            },
        }
    }
}
