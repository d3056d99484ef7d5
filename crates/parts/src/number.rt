// The numbers of a case: 7 bits a byte, low bits first, the top bit set if more bytes follow.
use crate::slice;

// What a number keeps where 7 bits more come below it.
const KEPT: usize = 1 << 57;

// The numbers of some bytes, at the end of a slice that is lent for them: from the last byte to the first, so that each
// step only appends low bits.
pub fn read<'a>(bytes: &[u8], numbers: &'a mut [usize]) -> &'a [usize] {
    let mut first = numbers.len();
    for byte in bytes.iter().rev() {
        first = put(*byte, first, numbers);
    }
    slice::after(numbers, first)
}

// A byte before the numbers from first on: without a top bit it is the high end of a number of its own, for which there
// may be no room.
fn put(byte: u8, first: usize, numbers: &mut [usize]) -> usize {
    if byte < 128 {
        let Some(before) = first.checked_sub(1) else {
            return first;
        };
        if let Some(number) = numbers.get_mut(before) {
            *number = byte as usize;
        }
        return before;
    }
    if let Some(number) = numbers.get_mut(first) {
        *number = *number % KEPT * 128 + (byte % 128) as usize;
    }
    first
}

// The number that an unsigned one stands for: 0, -1, 1, -2, 2 and so on. What is too large for an i32 is 0.
pub fn signed(turned: usize) -> i32 {
    match i32::try_from(turned / 2) {
        Ok(half) if turned % 2 == 0 => half,
        Ok(half) => !half,
        Err(_) => 0,
    }
}

// The low 16 bits, as a token.
pub fn token(number: usize) -> u16 {
    (number % 65536) as u16
}
