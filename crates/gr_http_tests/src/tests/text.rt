//! The marks that stand for bytes in the texts of tests.
use std::alloc::{AllocError, Global};
use std::test::Fail;

/// The bytes that words stand for. In them `␊` is a line feed, `␍` a carriage return and `⏎` both
/// of them; `§` is the record that names the columns of a roll file, with a line feed; `¿` is the
/// byte 255, which is not UTF-8, and `✂` are the first three bytes of a character of four. `⟨x*3⟩`,
/// which may stand there once, is `xxx`.
pub fn bytes_of(alloc: Global, words: &str) -> Result<Vec<u8>, Fail> {
    let mut bytes = Vec::new(alloc);
    add_meant(alloc, &mut bytes, words)?;
    Ok(bytes)
}

fn add_meant(alloc: Global, bytes: &mut Vec<u8>, words: &str) -> Result<(), Fail> {
    if let Some((before, rest)) = words.split_once('⟨') {
        let (filling, times, behind) = repeated(rest)?;
        add(bytes, before)?;
        add_times(alloc, bytes, filling, times)?;
        add(bytes, behind)?;
    } else {
        add(bytes, words)?;
    }
    Ok(())
}

/// What is repeated and how often, in the words after a `⟨`, and what stands after its `⟩`.
fn repeated(words: &str) -> Result<(&str, usize, &str), Fail> {
    let Some((inside, behind)) = words.split_once('⟩') else {
        return Err("no end".into());
    };
    let Some((filling, times)) = inside.split_once('*') else {
        return Err("no times".into());
    };
    let Ok(times) = times.parse() else {
        return Err("no number".into());
    };
    Ok((filling, times, behind))
}

fn add_times(
    alloc: Global,
    bytes: &mut Vec<u8>,
    filling: &str,
    times: usize,
) -> Result<(), AllocError> {
    let mut once = Vec::new(alloc);
    add(&mut once, filling)?;
    for _ in 0..times {
        bytes.extend_from_slice(once.as_slice())?;
    }
    Ok(())
}

fn add(bytes: &mut Vec<u8>, words: &str) -> Result<(), AllocError> {
    for character in words.chars() {
        add_character(bytes, character)?;
    }
    Ok(())
}

fn add_character(bytes: &mut Vec<u8>, character: char) -> Result<(), AllocError> {
    let meant = meaning(character);
    if meant.is_empty() {
        bytes.extend_from_slice(character.encode_utf8(&mut [0; 4]).as_bytes())
    } else {
        bytes.extend_from_slice(meant)
    }
}

/// The bytes that a mark stands for, and none for any other character.
fn meaning(character: char) -> &'static [u8] {
    match character {
        '␊' => b"\n".as_slice(),
        '␍' => b"\r".as_slice(),
        '⏎' => b"\r\n".as_slice(),
        '§' => b"login,name,status\n".as_slice(),
        '¿' => b"\xff".as_slice(),
        '✂' => b"\xf0\x9f\x98".as_slice(),
        _ => b"".as_slice(),
    }
}

/// So many characters of the words, from the front.
pub fn beginning(words: &str, count: usize) -> &str {
    match words.char_indices().nth(count) {
        Some((end, _)) => words.get(..end).unwrap_or(words),
        None => words,
    }
}

/// Adds these pieces to a text.
pub fn add_all(text: &mut String, pieces: &[&str]) -> Result<(), AllocError> {
    for piece in pieces {
        text.push_str(piece)?;
    }
    Ok(())
}
