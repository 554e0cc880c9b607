// An image's verdict: its layout where it is readable.
#![tactic(auto)]

mod all;

ghost use Rattle.std.specs.Prelude.{◌≡◌};
ghost use Rattle.rules.specs.Options.{is_some};
ghost use Rattle.rules.specs.Image.{readable};
ghost use Rattle.image.specs.Verdict.{Verdict};

use image_layout::Layout;

// Where the rows of a readable image stand: one walk of the image.
pub fn read_image(image: &[u8]) -> Option<Layout>
    ensures { Verdict image.now result }
{
    let l = image_sections::read_layout(image)?;
    all::check_rows(&l).then_some(l)
}

// Whether it is readable, alone.
pub fn is_readable(image: &[u8]) -> bool
    ensures { result ≡ is_some (readable image.now) }
{
    read_image(image).is_some()
}
