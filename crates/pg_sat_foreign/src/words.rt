//! The words of a line.

use pg_proof::LitList;
use std::alloc::{AllocError, Global};
use std::str;

/// The numbers of a line, and where a `d` stands among them.
#[derive(Drop)]
pub struct Numbers {
    pub numbers: Vec<i64>,
    pub removal: Option<usize>,
}

/// The text of a line, without what stands round it: none where it is no text.
pub fn text_of(line: &[u8]) -> Option<&str> {
    match str::from_utf8(line) {
        Ok(text) => Some(text.trim()),
        Err(_) => None,
    }
}

/// Whether a line says nothing: it is empty, or a comment.
pub fn says_nothing(text: &str) -> bool {
    text.is_empty() || text.starts_with('c')
}

/// The numbers of a line: none where a word is another, or a second `d`.
pub fn numbers_of(alloc: Global, text: &str) -> Result<Option<Numbers>, AllocError> {
    let mut numbers = Vec::new(alloc);
    let mut removal = None;
    for word in text.split_ascii_whitespace() {
        if word == "d" {
            if removal.is_some() {
                return Ok(None);
            }
            removal = Some(numbers.len());
            continue;
        }
        match word.parse::<i64>() {
            Ok(number) => numbers.push(number)?,
            Err(_) => return Ok(None),
        }
    }
    Ok(Some(Numbers { numbers, removal }))
}

/// The literal that a number is: none for 0, and for a variable of 2^31 or more.
pub fn literal_of(number: i64) -> Option<i32> {
    if number == 0 {
        return None;
    }
    match i32::try_from(number) {
        Ok(i32::MIN) | Err(_) => None,
        Ok(literal) => Some(literal),
    }
}

/// The literals that numbers are, or none where one is no literal.
pub fn literals_of(alloc: Global, numbers: &[i64]) -> Result<Option<LitList>, AllocError> {
    let mut literals = LitList::new(alloc);
    for number in numbers {
        match literal_of(*number) {
            Some(literal) => literals.push(literal)?,
            None => return Ok(None),
        }
    }
    Ok(Some(literals))
}
