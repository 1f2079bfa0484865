// The pieces of calls, put by a writer.
ghost use Rattle.std.specs.Prelude.{◌≡◌, ◌<◌, ◌^◌, OnOk};
ghost use Rattle.tr_codec.specs.Fits.{FitsKey, FitsMap};
ghost use Rattle.tr_parts.specs.Piece.{◌⊕◌, blob, byte, mode, number, counted};
ghost use Rattle.tr_codec.specs.Spelling.{key_piece, pair_piece, how_code, flag_code, call_piece};
ghost use Rattle.tr_codec.specs.Puts.{Puts};
ghost use Rattle.tr_codec.specs.Sound.{TypedCall};

use crate::key_pieces::{put_key, put_pairs};
use crate::writer::Writer;
use rk_base::{Bytes, NoMemory};
use rk_calls::{Call, How, Key, RefMap};

fn how_code(how: How) -> u8
    ensures { result ≡ how_code how }
{
    match how {
        How::Read => 0,
        How::Make => 1,
        How::Append => 2,
    }
}

/// A truth value as a byte.
pub(crate) fn flag_code(flag: bool) -> u8
    ensures { result ≡ flag_code flag }
{
    if flag { 1 } else { 0 }
}

fn put_number_call(w: &mut Writer, kind: u8, r: u64) -> Result<(), NoMemory>
    ensures puts { OnOk result (Puts (byte kind ⊕ number r) w.old w.new) }
    ensures range { r < 2 ^ 64 }
{
    w.put_byte(kind)?;
    w.put_number(r)?;
    Ok(())
}

fn put_path_call(w: &mut Writer, kind: u8, path: &Bytes) -> Result<(), NoMemory>
    ensures { OnOk result (Puts (byte kind ⊕ blob path.now) w.old w.new) }
{
    w.put_byte(kind)?;
    w.put_blob(path)?;
    Ok(())
}

fn put_code_call(w: &mut Writer, kind: u8, path: &Bytes, code: u8) -> Result<(), NoMemory>
    ensures { OnOk result (Puts (byte kind ⊕ blob path.now ⊕ byte code) w.old w.new) }
{
    w.put_byte(kind)?;
    w.put_blob(path)?;
    w.put_byte(code)?;
    Ok(())
}

fn put_mode_call(w: &mut Writer, kind: u8, path: &Bytes, permissions: u16) -> Result<(), NoMemory>
    ensures puts { OnOk result (Puts (byte kind ⊕ blob path.now ⊕ mode permissions) w.old w.new) }
    ensures range { permissions < 2 ^ 16 }
{
    w.put_byte(kind)?;
    w.put_blob(path)?;
    w.put_mode(permissions)?;
    Ok(())
}

fn put_texts_call(w: &mut Writer, kind: u8, a: &Bytes, b: &Bytes) -> Result<(), NoMemory>
    ensures { OnOk result (Puts (byte kind ⊕ blob a.now ⊕ blob b.now) w.old w.new) }
{
    w.put_byte(kind)?;
    w.put_blob(a)?;
    w.put_blob(b)?;
    Ok(())
}

fn put_write(w: &mut Writer, r: u64, bytes: &Bytes) -> Result<(), NoMemory>
    ensures puts { OnOk result (Puts (byte 4 ⊕ number r ⊕ blob bytes.now) w.old w.new) }
    ensures range { r < 2 ^ 64 }
{
    w.put_byte(4)?;
    w.put_number(r)?;
    w.put_blob(bytes)?;
    Ok(())
}

fn put_launch(w: &mut Writer, key: &Key, map: &RefMap) -> Result<(), NoMemory>
    ensures puts { OnOk result (Puts (byte 18 ⊕ key_piece key.now ⊕ counted pair_piece map.now) w.old w.new) }
    ensures key { OnOk result (FitsKey key.now) }
    ensures map { OnOk result (FitsMap map.now) }
{
    w.put_byte(18)?;
    put_key(w, key)?;
    put_pairs(w, map.as_slice())?;
    Ok(())
}

/// A call: its kind and its fields.
pub(crate) fn put_call(w: &mut Writer, call: &Call) -> Result<(), NoMemory>
    ensures puts { OnOk result (Puts (call_piece call.now) w.old w.new) }
    ensures typed { OnOk result (TypedCall call.now) }
{
    match call {
        Call::Open(path, how) => put_code_call(w, 1, path, how_code(*how)),
        Call::Read(r) => put_number_call(w, 2, *r),
        Call::ReadLine(r) => put_number_call(w, 3, *r),
        Call::Write(r, bytes) => put_write(w, *r, bytes),
        Call::Stat(path, follow) => put_code_call(w, 5, path, flag_code(*follow)),
        Call::List(path) => put_path_call(w, 6, path),
        Call::ReadLink(path) => put_path_call(w, 7, path),
        Call::Walk(path) => put_path_call(w, 8, path),
        Call::Same(a, b) => put_texts_call(w, 9, a, b),
        Call::Mkdir(path, mode) => put_mode_call(w, 10, path, *mode),
        Call::Rmdir(path) => put_path_call(w, 11, path),
        Call::Unlink(path) => put_path_call(w, 12, path),
        Call::Rename(a, b) => put_texts_call(w, 13, a, b),
        Call::Symlink(text, path) => put_texts_call(w, 14, text, path),
        Call::Link(a, b) => put_texts_call(w, 15, a, b),
        Call::Chmod(path, mode) => put_mode_call(w, 16, path, *mode),
        Call::Pipe => w.put_byte(17),
        Call::Launch(key, map) => put_launch(w, key, map),
    }
}
