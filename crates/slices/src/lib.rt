// A slice read at an offset, whatever its length: past the end a byte reads as 0.
#![tactic(auto)]

ghost use Rattle.std.specs.Prelude.{◌≡◌, ◌+◌, ◌*◌, ◌<◌, get_or, take, drop};
ghost use Rattle.laws.specs.Numbers.{number};

pub fn byte(s: &[u8], at: usize) -> u8
    ensures { result ≡ get_or s.now at 0 }
{
    if at < s.len() { s[at] } else { 0 }
}

pub fn after(s: &[u8], at: usize) -> &[u8]
    ensures { result.now ≡ drop at s.now }
{
    if at <= s.len() { &s[at..] } else { &s[..0] }
}

// The n bytes from at on, as far as there are any.
pub fn part(s: &[u8], at: usize, n: usize) -> &[u8]
    ensures { result.now ≡ take n (drop at s.now) }
{
    let rest = after(s, at);
    &rest[..n.min(rest.len())]
}

// The little-endian number of two bytes.
pub fn pair(low: u8, high: u8) -> u32
    ensures value { result ≡ low + 256 * high }
    ensures upper_bound { result < 65536 }
{
    u32::from(u16::from_le_bytes([low, high]))
}

// That of the two bytes from at on, with one test where both are there.
pub fn two(s: &[u8], at: usize) -> u32
    ensures value { result ≡ number 2 (drop at s.now) }
    ensures upper_bound { result < 65536 }
{
    if s.len() >= 2 && at <= s.len() - 2 {
        pair(s[at], s[at + 1])
    } else {
        u32::from(byte(s, at))
    }
}

// Kept: by halves, each with one test where it is there: byte by byte, by `from_le_bytes`, it takes longer.
pub fn four(s: &[u8], at: usize) -> u32
    ensures { result ≡ number 4 (drop at s.now) }
{
    let rest = after(s, at);
    two(rest, 0) + 65536 * two(rest, 2)
}

// Entry i of a table whose entries have one width, and what follows it.
pub fn entry(table: &[u8], i: usize, width: usize) -> &[u8]
    ensures { result.now ≡ drop (width * i) table.now }
{
    if width == 0 {
        return after(table, 0);
    }
    if i <= table.len() / width {
        return after(table, width * i);
    }
    after(table, table.len())
}
