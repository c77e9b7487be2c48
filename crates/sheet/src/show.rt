// What is lent, what came back, and the comparison with the sheet.
use std::io;

// So much of a slice as is to be lent; nothing where that is too much. What stands in it must not matter: the largest word, and one that
// is a rule, a node and a typecode too.
pub fn lent(s: &mut [u32], count: u32) -> &mut [u32] {
    for (i, x) in s.iter_mut().enumerate() {
        *x = if i % 2 == 0 { u32::MAX } else { 1 };
    }
    let n = count as usize;
    if n <= s.len() {
        &mut s[..n]
    } else {
        &mut s[..0]
    }
}

// Whether a slice holds these words, and zeros after them.
fn holds(s: &[u32], words: &[u32]) -> bool {
    match s.strip_prefix(words) {
        Some(others) => others.iter().all(|x| *x == 0),
        None => false,
    }
}

// The same, and it is said if not.
pub fn left<P: Print>(rt: &P, s: &[u32], words: &[u32]) -> io::Result<bool> {
    let same = holds(s, words);
    if !same {
        print!(rt; " | other words in a slice")?;
    }
    Ok(same)
}

// The numbers that came back, and whether they are the sheet's, which leaves out zeros at the end.
pub fn told<P: Print>(rt: &P, numbers: [u32; 4], answer: &[u32]) -> io::Result<bool> {
    for x in &numbers {
        print!(rt; " {x}")?;
    }
    Ok(holds(&numbers, answer))
}
