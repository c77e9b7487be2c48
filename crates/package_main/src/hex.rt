// A package as text: groups of hex digits, two for each byte, parted by blanks. `00*12` are twelve bytes 0.
ghost use Rattle.std.specs.Prelude.{◌≤◌, ◌<◌, length, IfOk, IfSome};

use text::ReadError;

fn digit(b: u8) -> Option<u8>
    ensures { IfSome result (λ d. d < 16) }
{
    match b {
        b'0'..=b'9' => Some(b - b'0'),
        b'a'..=b'f' => Some(b - b'a' + 10),
        _ => None,
    }
}

// What two digits say.
fn byte(pair: &[u8]) -> Result<u8, ReadError> {
    let [high, low] = pair else {
        return Err(ReadError::NoNumber);
    };
    match (digit(*high), digit(*low)) {
        (Some(high), Some(low)) => Ok(16 * high + low),
        _ => Err(ReadError::NoNumber),
    }
}

// A group's bytes, put from `at` on; where they end.
fn put(digits: &[u8], to: &mut [u8], at: usize) -> Result<usize, ReadError> {
    let mut end = at;
    for pair in digits.chunks(2) {
        let b = byte(pair)?;
        *to.get_mut(end).ok_or(ReadError::NoRoom)? = b;
        end += 1;
    }
    Ok(end)
}

// The same so many times as the item says.
fn put_item(item: &[u8], to: &mut [u8], at: usize) -> Result<usize, ReadError> {
    let (digits, times) = match text::split_once(item, b'*') {
        Some((digits, times)) => (digits, text::number(times)?),
        None => (item, 1),
    };
    if digits.is_empty() {
        return Err(ReadError::NoNumber);
    }
    let mut end = at;
    for _ in 0..times {
        end = put(digits, to, end)?;
    }
    Ok(end)
}

// A line's bytes, at the front of the slice; how many there are. A slice that gets full is too short. Nothing stands between two blanks.
pub fn read(line: &[u8], to: &mut [u8]) -> Result<usize, ReadError>
    ensures { IfOk result (λ n. n ≤ length to.new) }
{
    let mut end = 0;
    for item in line.split(|b| *b == b' ').filter(|item| !item.is_empty()) {
        end = put_item(item, to, end)?;
        if to.len() <= end {
            return Err(ReadError::NoRoom);
        }
    }
    Ok(end)
}
