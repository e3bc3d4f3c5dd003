// Looks for a byte.
ghost use Rattle.std.specs.Prelude.{◌≡◌, ◌≤◌, length};
ghost use Rattle.commands.specs.Places.{ahead};

// How many bytes stand before the first that is `byte`, or in all where there is none.
pub(crate) fn place_of(byte: u8, bytes: &[u8]) -> usize
    ensures is { result ≡ ahead byte bytes.now }
    ensures within { result ≤ length bytes.now }
{
    bytes.iter().position(|b| *b == byte).unwrap_or(bytes.len())
}
