// Whether two texts are the same.
ghost use Rattle.std.specs.Prelude.{◌≡◌};
ghost use Rattle.rules.specs.Words.{same};

// Not by `==`: std's comparison keeps the two slices in a struct, and `tools/copies image_qualified` has each local be a number or a lent slice.
pub fn same_text(a: &[u8], b: &[u8]) -> bool
    ensures { result ≡ same a.now b.now }
{
    if a.len() != b.len() {
        return false;
    }
    for (k, byte) in a.iter().enumerate() {
        if *byte != b[k] {
            return false;
        }
    }
    true
}
