// Bytes by hand, and what is read from them.
use rk_base::{Bytes, NoMemory};
use rk_steps::{behind, number, plain, text};
use sha2::{Digest, Sha256};
use std::alloc::Global;
use tr_codec::{CodecErr, Damage};

// `#N` is a number of eight bytes, `.HEX` bytes by their digits, `$TEXT` a text behind its length, and `'TEXT` a text alone.
fn push_part(alloc: Global, out: &mut Vec<u8>, word: &[u8]) -> Result<(), NoMemory> {
    match word {
        [b'#', digits @ ..] => {
            let n = str::from_utf8(digits)
                .unwrap_or("")
                .parse::<u64>()
                .unwrap_or(0);
            out.extend_from_slice(&n.to_be_bytes())?;
        }
        [b'.', digits @ ..] => {
            if let Ok(bytes) = hex::decode(alloc, digits) {
                out.extend_from_slice(&bytes)?;
            }
        }
        [b'$', text @ ..] => {
            out.extend_from_slice(&(text.len() as u64).to_be_bytes())?;
            out.extend_from_slice(text)?;
        }
        [b'\'', text @ ..] => out.extend_from_slice(text)?,
        _ => {}
    }
    Ok(())
}

// The bytes of these parts.
fn bytes_of(alloc: Global, words: &[Vec<u8>]) -> Result<Vec<u8>, NoMemory> {
    let mut out = Vec::new(alloc);
    'words: for word in words {
        push_part(alloc, &mut out, word.as_slice())?;
    }
    Ok(out)
}

// Bytes, and their digest (FIPS 180-4).
fn sealed(alloc: Global, body: &[u8]) -> Result<Vec<u8>, NoMemory> {
    let mut out = Vec::from_slice(alloc, body)?;
    out.extend_from_slice(&Sha256::digest(body))?;
    Ok(out)
}

// All but the digest.
fn body_of(bytes: &[u8]) -> &[u8] {
    bytes
        .split_at_checked(bytes.len().saturating_sub(32))
        .unwrap_or((b"", b""))
        .0
}

// Bytes, with the last bit of one of them changed.
fn changed(alloc: Global, bytes: &[u8], place: usize) -> Result<Vec<u8>, NoMemory> {
    let mut copy = Vec::from_slice(alloc, bytes)?;
    if let Some(byte) = copy.get_mut(place) {
        *byte ^= 1;
    }
    Ok(copy)
}

// Numbers of eight bytes.
fn push_numbers(out: &mut Vec<u8>, numbers: &[u64]) -> Result<(), NoMemory> {
    'numbers: for n in numbers {
        out.extend_from_slice(&n.to_be_bytes())?;
    }
    Ok(())
}

/// A database of one table, of so many nodes, pipes at cost 1 of which each follows the one before, and as many records of `sh`,
/// each with all of these steps.
pub(crate) fn chained(alloc: Global, many: u64) -> Result<Vec<u8>, NoMemory> {
    let mut out = Vec::from_slice(alloc, b"RKR3")?;
    push_numbers(&mut out, &[2, 2])?;
    out.extend_from_slice(b"sh")?;
    push_numbers(&mut out, &[1])?;
    out.extend_from_slice(b"/")?;
    push_numbers(&mut out, &[many])?;
    'nodes: for next in 0..many {
        push_numbers(&mut out, &[next, 1])?;
        out.extend_from_slice(&[17, 1])?;
    }
    push_numbers(&mut out, &[1, many])?;
    'records: for _ in 0..many {
        push_numbers(&mut out, &[1, 0, 1, 0, many])?;
        out.push(0)?;
        push_numbers(&mut out, &[0])?;
    }
    sealed(alloc, &out)
}

/// A length, and the digest at the end.
pub(crate) fn spelling_shown(alloc: Global, bytes: &[u8]) -> Result<String, NoMemory> {
    let (_, digest) = bytes
        .split_at_checked(bytes.len().saturating_sub(32))
        .unwrap_or((b"", b""));
    let digest = hex::encode(alloc, digest)?;
    let text = format!(in alloc; "{} {}", bytes.len(), digest.as_str())?;
    Ok(text)
}

// What is wrong with bytes.
fn damage_shown(alloc: Global, damage: Damage) -> Result<String, NoMemory> {
    match damage {
        Damage::Short(len) => {
            let text = format!(in alloc; "short {len}")?;
            Ok(text)
        }
        Damage::Digest { kept, computed } => {
            let kept = hex::encode(alloc, &kept)?;
            let computed = hex::encode(alloc, &computed)?;
            let text = format!(in alloc; "digest {} {}", kept.as_str(), computed.as_str())?;
            Ok(text)
        }
        Damage::Form => plain(alloc, "form"),
    }
}

/// What came of bytes that were read.
#[derive(Clone, Copy)]
pub(crate) enum Came {
    /// Something that is written back so.
    Spelt,
    /// Something that is written otherwise.
    Otherwise,
    Damaged(Damage),
}

/// What came of bytes, by what they were written as again.
pub(crate) fn came_of(again: Result<Bytes, CodecErr>, bytes: &[u8]) -> Result<Came, NoMemory> {
    match again {
        Ok(again) => Ok(if again.as_slice() == bytes {
            Came::Spelt
        } else {
            Came::Otherwise
        }),
        Err(CodecErr::Damaged(damage)) => Ok(Came::Damaged(damage)),
        Err(CodecErr::NoMemory) => Err(NoMemory),
    }
}

/// What is shown in place of what bytes spell.
pub(crate) fn not_read(alloc: Global, e: CodecErr) -> Result<String, NoMemory> {
    match e {
        CodecErr::Damaged(damage) => damage_shown(alloc, damage),
        CodecErr::NoMemory => Err(NoMemory),
    }
}

// How often each came.
#[derive(Drop)]
struct Tally {
    short: u64,
    digest: u64,
    form: u64,
    spelt: u64,
    otherwise: u64,
}

impl Tally {
    fn new() -> Tally {
        Tally {
            short: 0,
            digest: 0,
            form: 0,
            spelt: 0,
            otherwise: 0,
        }
    }

    // A length that is told but isn't this one counts as something else.
    fn count(&mut self, len: usize, came: Came) {
        let slot = match came {
            Came::Damaged(Damage::Short(told)) if told == len as u64 => &mut self.short,
            Came::Damaged(Damage::Digest { .. }) => &mut self.digest,
            Came::Damaged(Damage::Form) => &mut self.form,
            Came::Spelt => &mut self.spelt,
            _ => &mut self.otherwise,
        };
        *slot = slot.saturating_add(1);
    }

    fn shown(&self, alloc: Global) -> Result<String, NoMemory> {
        let text = format!(in alloc;
            "short {}, digest {}, form {}, spelt {}, otherwise {}",
            self.short, self.digest, self.form, self.spelt, self.otherwise
        )?;
        Ok(text)
    }
}

/// Something with a spelling.
pub(crate) trait Spelt {
    /// The bytes that it was last written as, or read from.
    fn bytes(&self) -> &[u8];

    /// It is what these bytes spell, which is shown.
    fn read(&mut self, bytes: Vec<u8>) -> Result<String, NoMemory>;

    /// What comes of other bytes.
    fn came(&self, bytes: &[u8]) -> Result<Came, NoMemory>;
}

// Each proper prefix, read.
fn each_prefix<S: Spelt>(alloc: Global, it: &S) -> Result<String, NoMemory> {
    let mut tally = Tally::new();
    let bytes = it.bytes();
    'lengths: for len in 0..bytes.len() {
        let (front, _) = bytes.split_at_checked(len).unwrap_or((b"", b""));
        tally.count(len, it.came(front)?);
    }
    tally.shown(alloc)
}

// The bytes with one bit of each byte changed, read.
fn each_change<S: Spelt>(alloc: Global, it: &S) -> Result<String, NoMemory> {
    let mut tally = Tally::new();
    let bytes = it.bytes();
    'places: for place in 0..bytes.len() {
        let other = changed(alloc, bytes, place)?;
        tally.count(other.len(), it.came(&other)?);
    }
    tally.shown(alloc)
}

// The bytes with one bit of each byte but those of the digest changed, each under a digest of its own, read.
fn each_change_sealed<S: Spelt>(alloc: Global, it: &S) -> Result<String, NoMemory> {
    let mut tally = Tally::new();
    let body = body_of(it.bytes());
    'places: for place in 0..body.len() {
        let other = sealed(alloc, &changed(alloc, body, place)?)?;
        tally.count(other.len(), it.came(&other)?);
    }
    tally.shown(alloc)
}

// It is what a body under its digest spells.
fn read_sealed<S: Spelt>(alloc: Global, it: &mut S, body: &[u8]) -> Result<String, NoMemory> {
    let bytes = sealed(alloc, body)?;
    it.read(bytes)
}

// The bytes with the last bit of one before the digest changed, under a new digest.
fn read_changed<S: Spelt>(alloc: Global, it: &mut S, place: u64) -> Result<String, NoMemory> {
    let body = changed(alloc, body_of(it.bytes()), place as usize)?;
    read_sealed(alloc, it, &body)
}

/// A step on the bytes of something with a spelling.
pub(crate) fn bytes_step<S: Spelt>(
    alloc: Global,
    it: &mut S,
    words: &[Vec<u8>],
) -> Result<String, NoMemory> {
    match text(words, 0) {
        "bytes" => it.read(bytes_of(alloc, behind(words))?),
        "sealed" => read_sealed(alloc, it, &bytes_of(alloc, behind(words))?),
        "changed" => read_changed(alloc, it, number(words, 1)),
        "each-prefix" => each_prefix(alloc, it),
        "each-change" => each_change(alloc, it),
        "each-change-sealed" => each_change_sealed(alloc, it),
        _ => plain(alloc, "unknown step"),
    }
}
