// Numbers in bytes, the lowest byte first.
ghost use Rattle.std.specs.Prelude.{◌≡◌, ◌+◌, ◌*◌, ◌≤◌, ◌/◌, length, take};
ghost use Rattle.package.specs.Bytes.{little, bytes_of, word_bytes, words_of};
ghost use Rattle.package.specs.Code.{pasted, Put};

// The number of the first N bytes.
pub fn number_of<const N: usize>(s: &[u8]) -> u32
    requires { (N ≤ 4) × (N ≤ length s.now) }
    ensures { result ≡ little (take N s.now) }
{
    let mut four = [0; 4];
    four[..N].copy_from_slice(&s[..N]);
    u32::from_le_bytes(four)
}

// The N lowest bytes of a number, at the front of `to`.
pub fn put_number<const N: usize>(to: &mut [u8], x: u32)
    requires { (N ≤ 4) × (N ≤ length to.old) }
    ensures { to.new ≡ pasted to.old 0 (bytes_of N x) }
{
    to[..N].copy_from_slice(&x.to_le_bytes()[..N]);
}

// Words as bytes, at the front of `to`.
pub fn put_words(to: &mut [u8], ws: &[u32])
    requires { 4 * length ws.now ≤ length to.old }
    ensures { to.new ≡ pasted to.old 0 (word_bytes ws.now) }
{
    for (i, w) in ws.iter().enumerate() {
        put_number::<4>(&mut to[4 * i..], *w);
    }
}

// The words of the bytes from `at` on, if there is room for all of them.
pub fn copy_words(to: &mut [u32], at: usize, bytes: &[u8])
    ensures { Put to.old at (words_of bytes.now) to.new }
{
    let (words, _) = bytes.as_chunks::<4>();
    if to.len().saturating_sub(at) < words.len() {
        return;
    }
    for (i, word) in words.iter().enumerate() {
        to[at + i] = u32::from_le_bytes(*word);
    }
}
