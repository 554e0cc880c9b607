// What both public calls do first.
#![tactic(auto)]

ghost use Rattle.std.specs.Prelude.{◌≡◌};
ghost use Rattle.call_open.specs.Fronts.{number_of, Fronts};

use image_layout::Layout;
use rules::bounds::DETAIL_BYTES;

// Why a call comes to nothing before it is begun: the detail is too short, or the image is not readable.
#[derive(Clone, Copy)]
pub enum Closed {
    ShortDetail,
    Unreadable,
}

impl Closed {
    // The number of the answer.
    pub fn number(self) -> u32
        ensures { result ≡ number_of self }
    {
        match self {
            Closed::ShortDetail => 1,
            Closed::Unreadable => 2,
        }
    }
}

// The layout of a readable image, where the detail that is lent has 576 bytes.
pub fn look(image: &[u8], lent: usize) -> Result<Layout, Closed>
    ensures { Fronts image.now lent result }
{
    if lent < DETAIL_BYTES {
        return Err(Closed::ShortDetail);
    }
    image::read_image(image).ok_or(Closed::Unreadable)
}
