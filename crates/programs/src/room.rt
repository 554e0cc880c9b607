// Room for bytes, all zeros.
ghost use Rattle.std.specs.Prelude.{◌≡◌, All, length};

// Of so many bytes. What it says leaves the array shut: one of a hundred thousand bytes would else compute in each proof above.
pub fn room<const N: usize>() -> [u8; N]
    ensures size { N ≡ length result }
    ensures zeros { All (λ byte. byte ≡ 0) result }
{
    [0; N]
}
