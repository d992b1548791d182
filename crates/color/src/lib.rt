// Colors of decoded pictures: expansion of a pixel, palette look, same picture.
//
// What the functions promise is defined in specs/Colors.antt, Look.antt and SamePicture.antt.
#![tactic(auto)]

pub mod palette;
pub mod pixel;
pub mod same;

pub use palette::palette_look;
pub use pixel::expand;
pub use same::{Shape, same_picture};
