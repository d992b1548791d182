// The start of an order: its kind, its run length, and where that stands: in its header, in the bytes after it, or nowhere.
ghost use Rattle.std.specs.Prelude.{◌≡◌, ◌≤◌, drop};
ghost use Rattle.definition.specs.Orders.{row_of, place_of, in_byte, in_two_bytes, length_of, mega_length, mega_mega_length};
ghost use Rattle.definition.specs.Codes.{kind_number};
ghost use Rattle.rle.specs.Kinds.{number_of};
ghost use Rattle.rle.specs.Heads.{ReadsLength, ReadsHead};

use crate::header::{header_kind, own_length};
use crate::kind::Kind;
use crate::length::Length;
use crate::reader::Reader;
use crate::record::Place;
use buf::{Buf, u8_from};
use picture::RleError;

// A run length in pixels, where it stands, and the next place in the stream.
#[derive(Clone, Copy)]
pub(crate) struct RunLength {
    pub(crate) pixels: usize,
    pub(crate) place: Place,
    pub(crate) next: usize,
}

// Why an order has no run length, and the place in the stream where that came out.
#[derive(Clone, Copy)]
pub(crate) struct NoLength {
    pub(crate) error: RleError,
    pub(crate) next: usize,
}

// The header byte of an order, where its run length stands, its kind, the run length, and the place of its operands in the stream.
#[derive(Clone, Copy)]
pub(crate) struct OrderHead {
    pub(crate) header: u8,
    pub(crate) place: Place,
    pub(crate) kind: Kind,
    pub(crate) run_length: Length,
    pub(crate) next: usize,
}

impl<'a> Reader<'a> {
    // A length of one byte, to which `mega` is added.
    pub(crate) fn extract_run_length_mega(self, mega: usize) -> Result<RunLength, NoLength>
        requires { (1 ≤ mega) × (mega ≤ 32) }
        ensures { ReadsLength self.entry.at.inner.now self.entry.at.pos in_byte result (mega_length mega (drop self.entry.at.pos self.entry.at.inner.now)) }
    {
        let pos = self.at.pos;
        let byte = self
            .at
            .peek_u8()
            .map_err(|error| NoLength { error, next: pos })?;
        Ok(RunLength {
            pixels: byte + mega,
            place: Place::InByte,
            next: pos + 1,
        })
    }

    // A length of two bytes.
    pub(crate) fn extract_run_length_mega_mega(self) -> Result<RunLength, NoLength>
        ensures { ReadsLength self.entry.at.inner.now self.entry.at.pos in_two_bytes result (mega_mega_length (drop self.entry.at.pos self.entry.at.inner.now)) }
    {
        let pos = self.at.pos;
        match self
            .at
            .peek_u16()
            .map_err(|error| NoLength { error, next: pos })?
        {
            0 => Err(NoLength {
                error: RleError::UnexpectedZeroLength,
                next: pos + 2,
            }),
            pixels => Ok(RunLength {
                pixels,
                place: Place::InTwoBytes,
                next: pos + 2,
            }),
        }
    }

    // The run length of the order with this header, of this kind: the header stands before the reader.
    pub(crate) fn extract_run_length(self, header: u8, kind: Kind) -> Result<RunLength, NoLength>
        requires { number_of kind ≡ kind_number header }
        ensures { ReadsLength self.entry.at.inner.now self.entry.at.pos (place_of (row_of header) header) result (length_of (row_of header) header (drop self.entry.at.pos self.entry.at.inner.now)) }
    {
        match own_length(header) {
            Some(own) => Ok(RunLength {
                pixels: own.pixels,
                place: kind.own_place(),
                next: self.at.pos,
            }),
            None if header < 0xF0 => self.extract_run_length_mega(kind.mega()),
            None => self.extract_run_length_mega_mega(),
        }
    }
}

// The start of the order at src[pos], or none at the stream's end.
pub(crate) fn read_head(src: &[u8], pos: usize) -> Result<Option<OrderHead>, NoLength>
    ensures { ReadsHead src.now pos result }
{
    let Ok(byte) = u8_from(src, pos) else {
        return Ok(None);
    };
    // The read gives a byte as a number.
    let header = byte as u8;
    let kind = header_kind(header);
    let behind = Reader {
        at: Buf::new(src, pos + 1),
    };
    let length = behind.extract_run_length(header, kind)?;
    Ok(Some(OrderHead {
        header,
        place: length.place,
        kind,
        run_length: Length {
            pixels: length.pixels,
        },
        next: length.next,
    }))
}
