// The line buffer: bytes and numbers are put at a place, as far as there is room.
#![tactic(auto)]

ghost use Rattle.std.specs.Prelude.{◌≡◌};
ghost use Rattle.list_text.specs.Line.{line, put};
ghost use Rattle.list_text.specs.Text.{decimal};

pub fn bytes_at(buffer: &mut [u8], at: usize, bytes: &[u8]) -> usize
    ensures { line buffer.new result ≡ put bytes.now (line buffer.old at) }
{
    slices_written::put(buffer, at, bytes);
    at.saturating_add(bytes.len()).min(buffer.len())
}

pub fn number_at(buffer: &mut [u8], at: usize, n: u64) -> usize
    ensures { line buffer.new result ≡ put (decimal n) (line buffer.old at) }
{
    let mut text = [0u8; 20];
    let digits = io::decimal(n, &mut text);
    bytes_at(buffer, at, &text[..digits])
}
