// Bytes as words of rows, and back.
use rk_base::NoMemory;
use std::alloc::Global;

/// Where a byte of a word stands in an escape.
#[derive(Clone, Copy)]
enum At {
    Plain,
    Escape,
    High,
    Low(u8),
}

fn digit(byte: u8) -> u8 {
    match byte {
        48..=57 => byte.wrapping_sub(48),
        97..=102 => byte.wrapping_sub(87),
        _ => 0,
    }
}

// Takes a byte of a word: `\n`, `\s` for a space, `\e` for nothing, `\\`, and `\x` with two digits.
fn take_byte(out: &mut Vec<u8>, at: At, byte: u8) -> Result<At, NoMemory> {
    match (at, byte) {
        (At::Plain, b'\\') => return Ok(At::Escape),
        (At::Plain, _) => out.push(byte)?,
        (At::Escape, b'n') => out.push(b'\n')?,
        (At::Escape, b's') => out.push(b' ')?,
        (At::Escape, b'e') => {}
        (At::Escape, b'x') => return Ok(At::High),
        (At::Escape, _) => out.push(byte)?,
        (At::High, _) => return Ok(At::Low(digit(byte))),
        (At::Low(high), _) => out.push(high.wrapping_mul(16).wrapping_add(digit(byte)))?,
    }
    Ok(At::Plain)
}

fn unescaped(alloc: Global, word: &str) -> Result<Vec<u8>, NoMemory> {
    let mut out = Vec::new(alloc);
    let mut at = At::Plain;
    'bytes: for byte in word.as_bytes() {
        at = take_byte(&mut out, at, *byte)?;
    }
    Ok(out)
}

fn push_byte(alloc: Global, text: &mut String, byte: u8) -> Result<(), NoMemory> {
    match byte {
        b'\n' => text.push_str("\\n")?,
        b' ' => text.push_str("\\s")?,
        b'\\' => text.push_str("\\\\")?,
        0x21..=0x7e => text.push(char::from(byte))?,
        _ => text.push_str(format!(in alloc; "\\x{byte:02x}")?.as_str())?,
    }
    Ok(())
}

/// Puts bytes at the end of a text, as a word that stands for them.
pub fn push_shown(alloc: Global, text: &mut String, bytes: &[u8]) -> Result<(), NoMemory> {
    if bytes.is_empty() {
        text.push_str("\\e")?;
    }
    'bytes: for byte in bytes {
        push_byte(alloc, text, *byte)?;
    }
    Ok(())
}

/// Bytes as a word that stands for them.
pub fn shown(alloc: Global, bytes: &[u8]) -> Result<String, NoMemory> {
    let mut text = String::new(alloc);
    push_shown(alloc, &mut text, bytes)?;
    Ok(text)
}

/// The words of a step.
pub(crate) fn words_of(alloc: Global, step: &str) -> Result<Vec<Vec<u8>>, NoMemory> {
    let mut words = Vec::new(alloc);
    'words: for word in step.split(' ') {
        words.push(unescaped(alloc, word)?)?;
    }
    Ok(words)
}
