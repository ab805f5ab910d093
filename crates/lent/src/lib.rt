// What the crates above are written with: numbers from bytes, low byte first; a part of a lent slice; and copying into one as far as it goes.
#![tactic(auto)]

ghost use Rattle.std.specs.Prelude.{◌≡◌, ◌+◌, ◌*◌, ◌≤◌, length, replicate};
ghost use Rattle.std.proofs.Math.Seq.{paste};
ghost use Rattle.lent.specs.Parts.{PartOf};
ghost use Rattle.rules.specs.Words.{bytes4, over};

// This and the next two only call the library: their edits and their rows in PROMISES hold them.
pub fn word(a: u8, b: u8) -> u16
    ensures { result ≡ a + 256 * b }
{
    u16::from_le_bytes([a, b])
}

pub fn long(a: u8, b: u8, c: u8, d: u8) -> u32
    ensures { result ≡ a + 256 * b + 65536 * (c + 256 * d) }
{
    u32::from_le_bytes([a, b, c, d])
}

pub fn bytes_of(n: u32) -> [u8; 4]
    ensures { result ≡ bytes4 n }
{
    n.to_le_bytes()
}

// By a loop: the library's copy is a call of C's `memmove`, which the archive would need from outside.
fn copy_all(dst: &mut [u8], at: usize, src: &[u8], n: usize)
    requires { (at + n ≤ length dst.old) × (n ≤ length src.now) }
    ensures { dst.new ≡ paste dst.old at src.now n }
{
    for i in 0..n {
        dst[at + i] = src[i];
    }
}

// Copies src into dst, from `at` on and as far as dst goes.
#[tactic(auto, using(crate::proofs::Copies::over_unmoved, rules::proofs::Rows::over_pastes))]
pub fn copy(dst: &mut [u8], at: usize, src: &[u8])
    ensures { dst.new ≡ over dst.old at src.now }
{
    if at < dst.len() {
        let n = src.len().min(dst.len() - at);
        copy_all(dst, at, src, n);
    }
}

// n bytes of a slice, from a place on and as far as it goes.
pub fn part(s: &[u8], from: usize, n: usize) -> &[u8]
    ensures { PartOf s.entry from n result }
{
    let start = from.min(s.len());
    let end = start + n.min(s.len() - start);
    &s[start..end]
}

// Clears n bytes at the front of dst, as far as it goes.
#[tactic(auto, using(crate::proofs::Copies::over_cleared))]
pub fn clear(dst: &mut [u8], n: usize)
    ensures { dst.new ≡ over dst.old 0 (replicate n 0) }
{
    let end = n.min(dst.len());
    dst[..end].fill(0);
}
