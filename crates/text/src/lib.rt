// The text that a program reads: its lines, the fields of a line, and the words of a field. A line end parts lines, a bar fields, a blank the
// items of a field, and a comma the words of an item.
#![tactic(auto)]

ghost use Rattle.std.specs.Prelude.{◌≡◌, ◌≢◌, ◌+◌, ◌≤◌, ◌<◌, ◌==◌, ◌∷◌, ◌++◌, length, take, count_by, All, IsNone, IfOk, IfSome};
ghost use Rattle.std.specs.Io.KnownBytes.{Consumes, IsAtEnd};

use std::io;
use std::io::Read;

// The most words of a program's slice: 64 KiB.
pub const MOST: usize = 16384;

// What a remark starts with.
pub const REMARK: u8 = b'#';

// Why a text can't be read.
#[derive(Clone, Copy, Debug, PartialEq, Eq)]
pub enum ReadError {
    // Something in it is no number, or not one that a word has room for.
    NoNumber,
    // It is more than fits the slice.
    NoRoom,
}

// Reads until the slice is full or the input ends; how many bytes stand at its front then.
pub fn read_full<R: Read>(from: &mut R, to: &mut [u8]) -> io::Result<usize>
    ensures within { IfOk result (λ n. n ≤ length to.new) }
    ensures taken { IfOk result (λ n. Consumes (R.remaining from.old) (R.remaining from.new) (take n to.new)) }
    ensures whole { IfOk result (λ n. n < length to.new → IsAtEnd (R.remaining from.new)) }
{
    // no `for`: each read says by how much `done` grows
    let mut done = 0;
    while done < to.len() {
        let n = from.read(&mut to[done..])?;
        if n == 0 {
            break;
        }
        done += n;
    }
    Ok(done)
}

// How many pieces a text has: one more than there are bytes that part them.
pub fn pieces(text: &[u8], by: u8) -> usize
    ensures counted { result ≡ 1 + count_by (λ b. b == by) text.now }
    ensures some { 1 ≤ result }
{
    1 + text.iter().filter(|b| **b == by).count()
}

// What stands before the first byte `by`, and what stands after it.
pub fn split_once(text: &[u8], by: u8) -> Option<(&[u8], &[u8])>
    ensures cut { IfSome result (λ p. text.now ≡ p.0.now ++ by ∷ p.1.now) }
    ensures first { IfSome result (λ p. All (λ b. b ≢ by) p.0.now) }
    ensures none { IsNone result → All (λ b. b ≢ by) text.now }
{
    let at = text.iter().position(|b| *b == by)?;
    Some((&text[..at], &text[at + 1..]))
}

// What a digit says. `c` and `s` are written for 0 and 1 where these are the kinds of an item or of an edge.
fn digit(b: u8) -> Option<u32> {
    match b {
        b'0'..=b'9' => Some(u32::from(b - b'0')),
        b'c' => Some(0),
        b's' => Some(1),
        _ => None,
    }
}

pub fn number(text: &[u8]) -> Result<u32, ReadError> {
    if text.is_empty() {
        return Err(ReadError::NoNumber);
    }
    text.iter()
        .try_fold(0u32, |n, b| n.checked_mul(10)?.checked_add(digit(*b)?))
        .ok_or(ReadError::NoNumber)
}

// The words of an item again and again, as many as it has or as it says after `*`. If that is no number, they go on to the end of the slice
// before the item is refused.
fn read_item(item: &[u8], out: &mut [u32]) -> Result<usize, ReadError>
    ensures { IfOk result (λ n. n ≤ length out.new) }
{
    let (words, count) = match split_once(item, b'*') {
        Some((words, count)) => (words, number(count).map(|n| n as usize)),
        None => (item, Ok(pieces(item, b','))),
    };
    let places = out.iter_mut().take(count.unwrap_or(usize::MAX));
    for (place, word) in places.zip(words.split(|b| *b == b',').cycle()) {
        *place = number(word)?;
    }
    let n = count?;
    if n <= out.len() {
        Ok(n)
    } else {
        Err(ReadError::NoRoom)
    }
}

// The words of a field, at the front of the slice; how many there are. A number is a word, and `7,8*5` are the words 7 8 7 8 7.
pub fn read(text: &[u8], out: &mut [u32]) -> Result<usize, ReadError>
    ensures { IfOk result (λ n. n ≤ length out.new) }
{
    let mut n = 0;
    for item in text.split(|b| *b == b' ').filter(|item| !item.is_empty()) {
        n += read_item(item, &mut out[n..])?;
    }
    Ok(n)
}
