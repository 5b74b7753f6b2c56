//! How contract files are written in tables of cases: as numbers with blanks between them.
use entries::ENTRY_BYTES;
use std::alloc::{AllocError, Global};

/// Up to eight numbers; those that are left out at the end are 0. Where something else stands, as `>` or `-`, is none.
pub type Numbers = [Option<u32>; 8];

/// The numbers of one part of a line.
fn numbers(part: &[u8]) -> Numbers {
    let mut numbers = [Some(0); 8];
    let words = part.split(|b| *b == b' ').filter(|word| !word.is_empty());
    for (number, word) in numbers.iter_mut().zip(words) {
        *number = lines::number(word);
    }
    numbers
}

/// The numbers of each part of a line, those of each entry apart. Those of the first part, the words, mean nothing.
pub fn parts(heap: Global, line: &[u8]) -> Result<Vec<Numbers>, AllocError> {
    line.split(|b| matches!(b, b'|' | b';'))
        .map(numbers)
        .collect(heap)
}

/// The bytes of a head, which are also those of the first five numbers of an entry.
// Kept as shifts: fields of one, one, two, two and two bytes are no array of like numbers.
fn first_bytes(numbers: [u32; 8]) -> [u8; 8] {
    let [tag, k, a, b, next, ..] = numbers;
    let high = u64::from(tag) << 56 | u64::from(k) << 48 | u64::from(a) << 32;
    (high | u64::from(b) << 16 | u64::from(next)).to_be_bytes()
}

/// The bytes of the u and the v of an entry.
fn last_bytes(numbers: [u32; 8]) -> [u8; 8] {
    let [.., u, v, _] = numbers;
    (u64::from(u) << 32 | u64::from(v)).to_be_bytes()
}

/// Appends an entry, as often as its eighth number says, and once if that is 0.
fn append_entry(bytes: &mut Vec<u8>, numbers: &Numbers) -> Result<(), AllocError> {
    let [.., times] = *numbers;
    for _ in 0..times.unwrap_or(0).max(1) {
        let behind = u32::try_from(bytes.len() / ENTRY_BYTES)
            .unwrap_or(0)
            .wrapping_add(2);
        let entry = numbers.map(|number| number.unwrap_or(behind));
        bytes.extend_from_slice(&first_bytes(entry))?;
        bytes.extend_from_slice(&last_bytes(entry))?;
    }
    Ok(())
}

/// The bytes of a file. A sign in an entry stands for the number of the entry behind.
pub fn file_bytes(
    heap: Global,
    head: &Numbers,
    entries: &[Numbers],
) -> Result<Vec<u8>, AllocError> {
    let head = head.map(|number| number.unwrap_or(0));
    let [.., length, _] = head;
    let mut bytes = Vec::new(heap);
    bytes.extend_from_slice(&first_bytes(head))?;
    for entry in entries {
        append_entry(&mut bytes, entry)?;
    }
    if length > 0 {
        bytes.resize(length as usize, 0)?;
    }
    Ok(bytes)
}
