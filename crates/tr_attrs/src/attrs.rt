// The attributes of paths as bytes, written and read.
ghost use Rattle.std.specs.Prelude.{◌≡◌, ◌≢◌, ◌<◌, ◌≤◌, ◌^◌, ◌++◌, ℕ, [], List, length, drop, true, IfOk, OnOk};
ghost use Rattle.std.specs.Int.{w16, to_be_bytes};
ghost use Rattle.std.specs.List.{flat_map};
ghost use Rattle.sha2.specs.Sha256.{sha256};
ghost use Rattle.rk_base.specs.Text.{Text};
ghost use Rattle.rk_attrs.specs.declared.rows.AttrRow.{AttrRow as Row};
ghost use Rattle.rk_attrs.specs.Rows.{are_rows};
ghost use Rattle.tr_attrs.specs.Attrs.{attr_spelling, row_spelling, attrs_body, attrs_spelling};
ghost use Rattle.tr_attrs.specs.RowReading.{attr_at, attr_row_at, rows_at};
ghost use Rattle.tr_parts.specs.Reading.{given, many_at, counted_at, path_at};
ghost use Rattle.tr_parts.specs.Reads.{Gives, Tells, Finds, FindsPart, front_of, seal_of};

use rk_attrs::{AttrRow, Attrs};
use rk_base::{Bytes, NoMemory, Path};
use std::alloc::Global;
use tr_parts::{
    CodecErr, Damage, PartErr, byte_of, count_of, is_same, mode_of, open_seal, path_of,
    push_number, push_string, seal, string_of,
};

// Two bytes.
fn push_mode(out: &mut Vec<u8>, mode: u16) -> Result<(), NoMemory>
    ensures { OnOk result (out.new.items ≡ out.old.items ++ to_be_bytes w16 mode) }
{
    out.extend_from_slice(&mode.to_be_bytes())?;
    Ok(())
}

fn push_attr(out: &mut Vec<u8>, it: &AttrRow) -> Result<(), NoMemory>
    ensures { OnOk result (out.new.items ≡ out.old.items ++ attr_spelling it.now) }
{
    match it {
        AttrRow::FileMode(mode) => {
            out.push(1)?;
            push_mode(out, *mode)?;
            Ok(())
        }
        AttrRow::DirMode(mode) => {
            out.push(2)?;
            push_mode(out, *mode)?;
            Ok(())
        }
        AttrRow::Link(text) => {
            out.push(3)?;
            push_string(out, text.as_slice())?;
            Ok(())
        }
    }
}

fn push_row(out: &mut Vec<u8>, path: &Path, it: &AttrRow) -> Result<(), NoMemory>
    ensures { OnOk result (out.new.items ≡ out.old.items ++ row_spelling (path.now, it.now)) }
{
    push_string(out, path.text())?;
    push_attr(out, it)?;
    Ok(())
}

fn push_rows(out: &mut Vec<u8>, rows: &[(Path, AttrRow)]) -> Result<(), NoMemory>
    ensures { OnOk result (out.new.items ≡ out.old.items ++ flat_map row_spelling rows.now) }
{
    'rows: for (path, it) in rows {
        push_row(out, path, it)?;
    }
    Ok(())
}

// All but the digest.
fn rows_body(alloc: Global, attrs: &Attrs) -> Result<Vec<u8>, NoMemory>
    ensures body { IfOk result (λ out. out.items ≡ attrs_body attrs.now) }
    ensures rows { are_rows attrs.now ≡ true }
{
    let rows = attrs.as_slice();
    let mut out = Vec::from_slice(alloc, b"RKA1")?;
    push_number(&mut out, rows.len() as u64)?;
    push_rows(&mut out, rows)?;
    Ok(out)
}

/// The one spelling of attributes.
pub fn write_attrs(alloc: Global, attrs: &Attrs) -> Result<Bytes, NoMemory>
    ensures bytes { IfOk result (λ bytes. bytes ≡ attrs_spelling attrs.now) }
    ensures rows { are_rows attrs.now ≡ true }
    ensures memory { IfOk result (λ bytes. length bytes < 2 ^ 64) }
{
    let out = rows_body(alloc, attrs)?;
    seal(out)
}

// What may be said of a path.
#[tactic(auto, unfolding(crate::specs::RowReading::attr_at, crate::specs::RowReading::file_mode_at, crate::specs::RowReading::dir_mode_at, crate::specs::RowReading::link_at))]
fn attr_of(alloc: Global, bytes: &[u8]) -> Result<(AttrRow, &[u8]), PartErr>
    ensures { Gives (λ x. (x.0, x.1.now)) result (attr_at bytes.now) }
{
    let (kind, rest) = byte_of(bytes)?;
    if kind == 1 {
        let (mode, rest) = mode_of(rest)?;
        return Ok((AttrRow::FileMode(mode), rest));
    }
    if kind == 2 {
        let (mode, rest) = mode_of(rest)?;
        return Ok((AttrRow::DirMode(mode), rest));
    }
    if kind == 3 {
        let (text, rest) = string_of(alloc, rest)?;
        return Ok((AttrRow::Link(text), rest));
    }
    Err(PartErr::Form)
}

#[tactic(auto, unfolding(tr_parts::specs::Reading::path_at))]
fn path_text_of(alloc: Global, bytes: &[u8]) -> Result<(Path, &[u8]), PartErr>
    ensures { Gives (λ x. (x.0, x.1.now)) result (path_at bytes.now) }
{
    let (text, rest) = string_of(alloc, bytes)?;
    let path = path_of(alloc, text.as_slice())?;
    Ok((path, rest))
}

#[tactic(auto, unfolding(crate::specs::RowReading::attr_row_at))]
fn row_of(alloc: Global, bytes: &[u8]) -> Result<((Path, AttrRow), &[u8]), PartErr>
    ensures { Gives (λ x. (x.0, x.1.now)) result (attr_row_at bytes.now) }
{
    let (path, rest) = path_text_of(alloc, bytes)?;
    let (it, rest) = attr_of(alloc, rest)?;
    Ok(((path, it), rest))
}

fn so_many_rows(
    alloc: Global,
    count: u64,
    bytes: &[u8],
) -> Result<(Vec<(Path, AttrRow)>, &[u8]), PartErr>
    ensures { Gives (λ x. (x.0.items, x.1.now)) result (many_at (λ front. attr_row_at) count [] bytes.now) }
{
    let mut rows = Vec::new(alloc);
    let mut rest = bytes;
    'rows: for _ in 0..count {
        let (row, after) = row_of(alloc, rest)?;
        rows.push(row)?;
        rest = after;
    }
    Ok((rows, rest))
}

fn counted_rows(alloc: Global, bytes: &[u8]) -> Result<(Vec<(Path, AttrRow)>, &[u8]), PartErr>
    ensures { Gives (λ x. (x.0.items, x.1.now)) result (counted_at (λ front. attr_row_at) bytes.now) }
{
    let (count, rest) = count_of(bytes)?;
    let (rows, rest) = so_many_rows(alloc, count, rest)?;
    Ok((rows, rest))
}

fn attrs_from(rows: Vec<(Path, AttrRow)>) -> Result<Attrs, PartErr>
    ensures { Gives (λ a. a) result (given (are_rows rows.items) rows.items) }
{
    match Attrs::from_vec(rows) {
        Some(attrs) => Ok(attrs),
        None => Err(PartErr::Form),
    }
}

// The rows that a body may spell, after its magic. What stands after them isn't looked at.
#[tactic(auto, unfolding(crate::specs::RowReading::rows_at))]
fn rows_of(alloc: Global, bytes: &[u8]) -> Result<Attrs, PartErr>
    ensures { Gives (λ a. a) result (rows_at bytes.now) }
{
    let (rows, _) = counted_rows(alloc, bytes)?;
    attrs_from(rows)
}

// What a body may spell. The four bytes at its front are not looked at.
fn candidate(alloc: Global, front: &[u8]) -> Result<Attrs, PartErr>
    requires { 4 ≤ length front.now }
    ensures { Gives (λ a. a) result (rows_at (drop 4 front.now)) }
{
    let (_, rest) = front.split_at(4);
    rows_of(alloc, rest)
}

// What a body spells: what it may spell is spelt again and compared.
fn body_rows(alloc: Global, front: &[u8]) -> Result<Attrs, PartErr>
    requires { 4 ≤ length front.now }
    ensures found { IfOk result (λ rows. (are_rows rows ≡ true) × (front.now ≡ attrs_body rows)) }
    ensures only { (rows : List (Text × Row)) → are_rows rows ≡ true → front.now ≡ attrs_body rows → FindsPart result rows }
{
    let attrs = candidate(alloc, front)?;
    let again = rows_body(alloc, &attrs)?;
    if is_same(&again, front) {
        Ok(attrs)
    } else {
        Err(PartErr::Form)
    }
}

/// The attributes that the bytes spell.
pub fn read_attrs(alloc: Global, bytes: &[u8]) -> Result<Attrs, CodecErr>
    // What is read has these bytes as its spelling.
    ensures found { IfOk result (λ rows. (are_rows rows ≡ true) × (bytes.now ≡ attrs_spelling rows)) }
    // Rows that have these bytes as their spelling are read, unless memory runs out.
    ensures only { (rows : List (Text × Row)) → are_rows rows ≡ true → bytes.now ≡ attrs_spelling rows → Finds result rows }
    // Which damage it is, and when it is one of the first two.
    ensures damage { Tells 44 bytes.now result }
    ensures short { length bytes.now < 44 → result ≡ Err (CodecErr.Damaged (Damage.Short (length bytes.now))) }
    ensures digest { 44 ≤ length bytes.now → seal_of bytes.now ≢ sha256 (front_of bytes.now) → result ≡ Err (CodecErr.Damaged (Damage.Digest (seal_of bytes.now) (sha256 (front_of bytes.now)))) }
{
    let front = open_seal(bytes, 44)?;
    let attrs = body_rows(alloc, front)?;
    Ok(attrs)
}
