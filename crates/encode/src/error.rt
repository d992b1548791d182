// Why there is no stream.
use picture::{Numbers, RleError};
use thiserror::Error;

#[derive(Clone, Copy, Debug, PartialEq, Eq, Error)]
pub enum CompressError {
    // As in decoding: the depth, the sizes, or a pixel buffer that is too short.
    #[error(transparent)]
    Refused(RleError),
    #[error("the output is too short for the stream")]
    OutputTooShort,
}

// By hand: the derived one has no contract.
impl From<RleError> for CompressError {
    ghost use Rattle.std.specs.Prelude.{◌≡◌};
    ghost use Rattle.encode.specs.declared.error.CompressError.TheVariants.{Refused};

    ghost from_gives = { λ e r. r ≡ Refused e };

    fn from(e: RleError) -> CompressError {
        CompressError::Refused(e)
    }
}

// A refusal that decoding has too keeps its number there.
impl From<CompressError> for Numbers {
    ghost use Rattle.encode.specs.Promises.{Numbered};

    ghost from_gives = { λ e r. Numbered e r };

    fn from(e: CompressError) -> Numbers {
        match e {
            CompressError::Refused(refusal) => Numbers::from(refusal),
            CompressError::OutputTooShort => Numbers {
                refusal: 14,
                ..Numbers::default()
            },
        }
    }
}
