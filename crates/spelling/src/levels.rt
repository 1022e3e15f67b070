// Bytes and levels of a line.
ghost use Rattle.std.specs.Prelude.{◌≡◌, cond, ◌==◌, [], IfOk, vec_items, string_bytes};
ghost use Rattle.std.specs.Option.{option_map};
ghost use Rattle.spelling.specs.Spellings.{Read, Spell};
ghost use Rattle.spelling.specs.Texts.{hex_bytes, row_text, rows_text};
ghost use Rattle.spelling.specs.Words.{words as words_of};

use crate::hex;
use crate::written::Written;
use std::alloc::{AllocError, Global};

// The bytes that a text of hexadecimal digits writes, two digits each.
pub fn bytes(heap: Global, digits: &[u8]) -> Result<Option<Vec<u8>>, AllocError>
    ensures { IfOk result (λ o. option_map vec_items o ≡ hex_bytes digits.now) }
{
    let mut bytes = Vec::new(heap);
    if digits.len() % 2 == 1 {
        return Ok(None);
    }
    for pair in digits.chunks_exact(2) {
        match hex::byte(pair[0], pair[1]) {
            Some(byte) => bytes.push(byte)?,
            None => return Ok(None),
        }
    }
    Ok(Some(bytes))
}

// The levels that the words of a text spell; none where one of the words spells none.
pub fn levels<L: Written>(heap: Global, text: &str) -> Result<Option<Vec<L>>, AllocError>
    ensures { IfOk result (λ o. Read (Spell L.Written.spells) (words_of text.now) (option_map vec_items o)) }
{
    let mut levels = Vec::new(heap);
    for word in text.split_ascii_whitespace() {
        match L::read(word) {
            Some(level) => levels.push(level)?,
            None => return Ok(None),
        }
    }
    Ok(Some(levels))
}

// Levels as text, parted by one space.
pub fn row<L: Written>(heap: Global, levels: &[L]) -> Result<String, AllocError>
    ensures { IfOk result (λ s. string_bytes s ≡ row_text L.Written.text levels.now) }
{
    let mut text = String::new(heap);
    for (i, level) in levels.iter().enumerate() {
        let level = level.show(heap)?;
        text.push_str(parting(i, " "))?;
        text.push_str(level.as_str())?;
    }
    Ok(text)
}

// An image as text: a line for each row.
pub fn rows<L: Written>(heap: Global, width: usize, levels: &[L]) -> Result<String, AllocError>
    ensures { IfOk result (λ s. string_bytes s ≡ rows_text L.Written.text width levels.now) }
{
    let mut text = String::new(heap);
    for (i, levels) in levels.chunks(width.max(1)).enumerate() {
        let line = row(heap, levels)?;
        text.push_str(parting(i, "\n"))?;
        text.push_str(line.as_str())?;
    }
    Ok(text)
}

// What stands before the part at an index: nothing before the first.
fn parting(index: usize, sign: &'static str) -> &'static str
    ensures { result.now ≡ cond (index == 0) [] sign.now }
{
    if index == 0 { "" } else { sign }
}
