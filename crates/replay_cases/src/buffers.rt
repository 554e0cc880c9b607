// What a lent buffer is to hold after a call.
ghost use Rattle.std.specs.Prelude.{◌≡◌, ◌==◌, ◌++◌, ◌-◌, length, replicate};
ghost use Rattle.std.specs.List.{list_all};
ghost use Rattle.rules.specs.Words.{same};

// Whether all bytes are what the buffer was filled with.
fn untouched(rest: &[u8], fill: u8) -> bool
    ensures { result ≡ list_all (λ byte. byte == fill) rest.now }
{
    rest.iter().all(|byte| *byte == fill)
}

// Whether a buffer holds the stored bytes, and behind them what it was filled with.
pub fn holds(buffer: &[u8], stored: &[u8], fill: u8) -> bool
    ensures { result ≡ same buffer.now (stored.now ++ replicate (length buffer.now - length stored.now) fill) }
{
    let Some(rest) = buffer.strip_prefix(stored) else {
        return false;
    };
    untouched(rest, fill)
}
