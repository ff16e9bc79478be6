// A slice written at an offset, whatever its length: past the end nothing is written.
#![tactic(auto)]

ghost use Rattle.std.specs.Prelude.{◌≡◌};
ghost use Rattle.std.proofs.lemmas.List.Edits.{sets};

pub fn put(s: &mut [u8], at: usize, bytes: &[u8])
    ensures { s.new ≡ sets s.old at bytes.now }
{
    if at <= s.len() {
        let n = bytes.len().min(s.len() - at);
        s[at..at + n].copy_from_slice(&bytes[..n]);
    }
}
