// Tile texts: a `Parser` reads one, in chunks of any size, and `reply` writes the answer to it.
//
// What a tile text is and what is answered is defined in specs/Text.antt and specs/Answer.antt; that the functions here give that
// answer to every text is `chunks_answered` in proofs/Inverse.antt.
#![tactic(auto)]

pub mod answer;
pub(crate) mod lines;
pub mod parser;
pub(crate) mod refusal;
pub mod stream;

pub use answer::{ANSWER_SPACE, PICTURE_LIMIT, reply, reply_to};
pub use parser::{Line, Parser};
pub use stream::{STREAM_LIMIT, StreamBytes};
