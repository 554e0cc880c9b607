// Bytes and decimal numbers, one behind the other in a lent text, cut where it ends. Each function says where the next
// byte goes.
ghost use Rattle.std.specs.Prelude.{◌≤◌, [], ◌∷◌, ◌++◌, length};
ghost use Rattle.lines.specs.Text.{Tells};
ghost use Rattle.lines.specs.Decimal.{decimal};

// Some bytes.
pub fn put_bytes(text: &mut [u8], at: usize, bytes: &[u8]) -> usize
    requires { at ≤ length text.old }
    ensures { Tells bytes.now at result text.old text.new }
{
    let n = bytes.len().min(text.len() - at);
    text[at..at + n].copy_from_slice(&bytes[..n]);
    at + n
}

// A number's digits.
pub fn put_decimal(text: &mut [u8], at: usize, n: u64) -> usize
    requires { at ≤ length text.old }
    ensures { Tells (decimal n) at result text.old text.new }
{
    let mut digits = [0u8; 20];
    let k = io::decimal(n, &mut digits);
    put_bytes(text, at, &digits[..k])
}

// A number's digits, and the byte behind them.
pub fn put_number(text: &mut [u8], at: usize, n: u32, end: u8) -> usize
    requires { at ≤ length text.old }
    ensures { Tells (decimal n ++ (end ∷ [])) at result text.old text.new }
{
    let next = put_decimal(text, at, u64::from(n));
    put_bytes(text, next, &[end])
}
