// A writer of pieces.
ghost use Rattle.std.specs.Prelude.{◌≡◌, ◌<◌, ◌^◌, ◌++◌, [], length, true, IfOk, IfSome, OnOk};
ghost use Rattle.std.specs.List.{flat_map};
ghost use Rattle.rk_base.specs.Canonical.{is_canonical};
ghost use Rattle.tr_parts.specs.Piece.{with_use, number_of, num, string, plain, blob, byte, mode, number};
ghost use Rattle.tr_codec.specs.Puts.{Puts, spelt_body};

use crate::node_bytes::NodeBytes;
use indexmap::IndexMap;
use rk_base::{Bytes, Name, NoMemory, Path};
use rk_content::{ContentId, Contents};
use std::alloc::Global;
use std::marker::Model;
use tr_parts::{push_number, push_string};

/// The blobs that were used so far, in the order of first use, and the bytes that were put. A long text that was used before
/// is mostly found by its mark, so that it isn't hashed again.
#[derive(Drop)]
pub struct Writer {
    blobs: Contents,
    recent: IndexMap<u64, ContentId>,
    out: Vec<u8>,
}

impl Model for Writer {
    ghost use Rattle.tr_codec.specs.Puts.{Written};

    ghost Value = { Written };

    ghost view = { λ w. record { blobs = w.blobs; bytes = w.out.items } };
}

// From so many bytes on a text is looked for by its mark before it is hashed.
const LONG: usize = 256;

// What tells most texts apart: the length, and a byte of each 32nd part. Nothing rests on it: what is found by it is compared.
fn mark_of(text: &[u8]) -> u64 {
    let part = text.len() / 32;
    let mut mark = text.len() as u64;
    for i in 0..32usize {
        if let Some(byte) = text.get(i.wrapping_mul(part)) {
            mark = mark.wrapping_mul(0x0100_0000_01b3) ^ u64::from(*byte);
        }
    }
    mark
}

// The number of a text that was the last one with its mark.
fn recalled(
    blobs: &Contents,
    recent: &IndexMap<u64, ContentId>,
    mark: u64,
    text: &Bytes,
) -> Option<ContentId>
    ensures used { IfSome result (λ n. with_use blobs.now text.now ≡ blobs.now) }
    ensures number { IfSome result (λ n. n ≡ number_of blobs.now text.now) }
{
    let n = *recent.get(&mark)?;
    let blob = blobs.get(n)?;
    let _ = blobs.as_slice();
    if blob.same(text) { Some(n) } else { None }
}

// The number of a text, which is added where it is new. It is hashed once.
fn looked_up(blobs: &mut Contents, text: &Bytes) -> Result<ContentId, NoMemory>
    ensures blobs { OnOk result (blobs.new ≡ with_use blobs.old text.now) }
    ensures number { IfOk result (λ n. n ≡ number_of blobs.new text.now) }
{
    let n = blobs.put(text)?;
    let _ = blobs.as_slice();
    Ok(n)
}

// The number of a text, which is added where it is new. A long one is hashed only where another one, or none, is known by its mark.
fn number_in(
    blobs: &mut Contents,
    recent: &mut IndexMap<u64, ContentId>,
    text: &Bytes,
) -> Result<ContentId, NoMemory>
    ensures blobs { OnOk result (blobs.new ≡ with_use blobs.old text.now) }
    ensures number { IfOk result (λ n. n ≡ number_of blobs.new text.now) }
{
    if text.len() < LONG {
        return looked_up(blobs, text);
    }
    let mark = mark_of(text.as_slice());
    if let Some(n) = recalled(blobs, recent, mark, text) {
        return Ok(n);
    }
    let n = looked_up(blobs, text)?;
    recent.insert(mark, n)?;
    Ok(n)
}

// How many bytes these texts have, each behind its length.
fn room_for_texts(texts: &[Bytes]) -> usize {
    let mut room: usize = 0;
    for text in texts {
        room = room.saturating_add(8).saturating_add(text.len());
    }
    room
}

// How many bytes these nodes have.
fn room_for_nodes(nodes: &[NodeBytes]) -> usize {
    let mut room: usize = 0;
    for node in nodes {
        room = room.saturating_add(node.as_slice().len());
    }
    room
}

fn push_strings(out: &mut Vec<u8>, texts: &[Bytes]) -> Result<(), NoMemory>
    ensures { OnOk result (out.new.items ≡ out.old.items ++ flat_map string texts.now) }
{
    'texts: for text in texts {
        push_string(out, text.as_slice())?;
    }
    Ok(())
}

fn push_all(out: &mut Vec<u8>, nodes: &[NodeBytes]) -> Result<(), NoMemory>
    ensures { OnOk result (out.new.items ≡ out.old.items ++ flat_map (λ node. node) nodes.now) }
{
    'nodes: for node in nodes {
        out.extend_from_slice(node.as_slice())?;
    }
    Ok(())
}

impl Writer {
    /// Nothing was put.
    pub(crate) fn new(alloc: Global) -> Writer
        ensures { result ≡ record { blobs = []; bytes = [] } }
    {
        Writer {
            blobs: Contents::new(alloc),
            recent: IndexMap::new(alloc),
            out: Vec::new(alloc),
        }
    }

    /// Bytes as they stand.
    pub(crate) fn put_plain(&mut self, bytes: &[u8]) -> Result<(), NoMemory>
        ensures { OnOk result (Puts (plain bytes.now) self.old self.new) }
    {
        self.out.extend_from_slice(bytes)?;
        Ok(())
    }

    pub(crate) fn put_byte(&mut self, b: u8) -> Result<(), NoMemory>
        ensures puts { OnOk result (Puts (byte b) self.old self.new) }
        ensures range { b < 2 ^ 8 }
    {
        self.put_plain(&[b])?;
        Ok(())
    }

    /// Two bytes.
    pub(crate) fn put_mode(&mut self, n: u16) -> Result<(), NoMemory>
        ensures { OnOk result (Puts (mode n) self.old self.new) }
    {
        self.put_plain(&n.to_be_bytes())?;
        Ok(())
    }

    /// Eight bytes.
    #[tactic(auto, unfolding(tr_parts::specs::Piece::num))]
    pub fn put_number(&mut self, n: u64) -> Result<(), NoMemory>
        ensures puts { OnOk result (Puts (number n) self.old self.new) }
        ensures range { n < 2 ^ 64 }
    {
        self.put_plain(&n.to_be_bytes())?;
        Ok(())
    }

    /// The number of a text's blob.
    pub(crate) fn put_blob(&mut self, text: &Bytes) -> Result<(), NoMemory>
        ensures { OnOk result (Puts (blob text.now) self.old self.new) }
    {
        let n = number_in(&mut self.blobs, &mut self.recent, text)?;
        push_number(&mut self.out, n.number() as u64)?;
        Ok(())
    }

    /// The number of a path's blob.
    pub(crate) fn put_path(&mut self, path: &Path) -> Result<(), NoMemory>
        ensures puts { OnOk result (Puts (blob path.now) self.old self.new) }
        ensures canonical { is_canonical path.now ≡ true }
    {
        self.put_blob(path.bytes())?;
        Ok(())
    }

    /// The number of a name's blob.
    pub(crate) fn put_name(&mut self, name: &Name) -> Result<(), NoMemory>
        ensures { OnOk result (Puts (blob name.now) self.old self.new) }
    {
        let alloc = *self.out.allocator();
        let text = Bytes::from_slice(alloc, name.as_slice())?;
        self.put_blob(&text)?;
        Ok(())
    }

    /// The bytes that were put, which are taken out.
    pub(crate) fn take(&mut self) -> Result<NodeBytes, NoMemory>
        ensures taken { IfOk result (λ bytes. bytes ≡ self.old.bytes) }
        ensures left { OnOk result (self.new ≡ record { blobs = self.old.blobs; bytes = [] }) }
        ensures few { IfOk result (λ bytes. length bytes < 2 ^ 64) }
        ensures blobs { OnOk result (length self.new.blobs < 2 ^ 64) }
    {
        let alloc = *self.out.allocator();
        let bytes = NodeBytes::from_slice(alloc, self.out.as_slice())?;
        self.out.clear();
        let _ = self.blobs.as_slice();
        Ok(bytes)
    }

    // How many bytes a body has, with two numbers and the digest that comes behind it.
    fn room(&self, magic: &[u8], nodes: &[NodeBytes]) -> usize {
        magic
            .len()
            .saturating_add(16 + 32)
            .saturating_add(room_for_texts(self.blobs.as_slice()))
            .saturating_add(room_for_nodes(nodes))
            .saturating_add(self.out.len())
    }

    /// The magic, the blobs, the nodes, whose bytes these are, and what was put.
    pub fn body(&self, magic: &[u8], nodes: &[NodeBytes]) -> Result<Vec<u8>, NoMemory>
        ensures { IfOk result (λ out. out.items ≡ spelt_body magic.now self.now nodes.now) }
    {
        let alloc = *self.out.allocator();
        let blobs = self.blobs.as_slice();
        let mut out = Vec::with_capacity(alloc, self.room(magic, nodes))?;
        out.extend_from_slice(magic)?;
        push_number(&mut out, blobs.len() as u64)?;
        push_strings(&mut out, blobs)?;
        push_number(&mut out, nodes.len() as u64)?;
        push_all(&mut out, nodes)?;
        out.extend_from_slice(self.out.as_slice())?;
        Ok(out)
    }
}
