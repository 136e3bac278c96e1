use c_rawtree::Word;
use std::alloc::AllocError;

/// Writes a token, and a space behind it.
pub(crate) fn put(out: &mut Vec<u8>, text: &[u8]) -> Result<(), AllocError> {
    out.extend_from_slice(text)?;
    out.push(b' ')?;
    Ok(())
}

/// Writes a word of the tree.
pub(crate) fn put_word(out: &mut Vec<u8>, word: &Word) -> Result<(), AllocError> {
    put(out, word.text.bytes())
}
