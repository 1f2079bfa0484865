// The pieces of answers, put by a writer.
ghost use Rattle.std.specs.Prelude.{◌≡◌, ◌<◌, ◌^◌, true, OnOk};
ghost use Rattle.rk_base.specs.Canonical.{is_canonical};
ghost use Rattle.rk_base.specs.Names.{are_names};
ghost use Rattle.tr_parts.specs.Piece.{◌⊕◌, blob, byte, mode, each, counted};
ghost use Rattle.tr_codec.specs.Spelling.{kind_code, flag_code, errno_code, answer_piece};
ghost use Rattle.tr_codec.specs.Puts.{Puts};
ghost use Rattle.tr_codec.specs.Sound.{TypedAnswer};

use crate::call_pieces::flag_code;
use crate::writer::Writer;
use rk_base::{Bytes, Errno, FileType, Name, NameList, NoMemory, Path};
use rk_calls::Answer;

fn kind_code(kind: FileType) -> u8
    ensures { result ≡ kind_code kind }
{
    match kind {
        FileType::File => 1,
        FileType::Dir => 2,
        FileType::Link => 3,
    }
}

fn errno_code(errno: Errno) -> u8
    ensures { result ≡ errno_code errno }
{
    match errno {
        Errno::NoEntry => 1,
        Errno::NotDir => 2,
        Errno::IsDir => 3,
        Errno::Exists => 4,
        Errno::Denied => 5,
        Errno::Loops => 6,
        Errno::NotEmpty => 7,
        Errno::BadRef => 8,
        Errno::Invalid => 9,
    }
}

fn put_text_answer(w: &mut Writer, kind: u8, text: &Bytes) -> Result<(), NoMemory>
    ensures { OnOk result (Puts (byte kind ⊕ blob text.now) w.old w.new) }
{
    w.put_byte(kind)?;
    w.put_blob(text)?;
    Ok(())
}

fn put_code_answer(w: &mut Writer, kind: u8, code: u8) -> Result<(), NoMemory>
    ensures puts { OnOk result (Puts (byte kind ⊕ byte code) w.old w.new) }
    ensures range { OnOk result (code < 2 ^ 8) }
{
    w.put_byte(kind)?;
    w.put_byte(code)?;
    Ok(())
}

fn put_stat(w: &mut Writer, kind: u8, permissions: u16, empty: u8) -> Result<(), NoMemory>
    ensures puts { OnOk result (Puts (byte 5 ⊕ byte kind ⊕ mode permissions ⊕ byte empty) w.old w.new) }
    ensures range { permissions < 2 ^ 16 }
{
    w.put_byte(5)?;
    w.put_byte(kind)?;
    w.put_mode(permissions)?;
    w.put_byte(empty)?;
    Ok(())
}

fn put_list(w: &mut Writer, names: &[Name]) -> Result<(), NoMemory>
    ensures { OnOk result (Puts (counted blob names.now) w.old w.new) }
{
    w.put_number(names.len() as u64)?;
    'names: for name in names {
        w.put_name(name)?;
    }
    Ok(())
}

fn put_names(w: &mut Writer, names: &NameList) -> Result<(), NoMemory>
    ensures puts { OnOk result (Puts (byte 6 ⊕ counted blob names.now) w.old w.new) }
    ensures names { OnOk result (are_names names.now ≡ true) }
{
    w.put_byte(6)?;
    put_list(w, names.as_slice())?;
    Ok(())
}

fn put_place(w: &mut Writer, path: &Path) -> Result<(), NoMemory>
    ensures puts { OnOk result (Puts (byte 8 ⊕ blob path.now) w.old w.new) }
    ensures canonical { OnOk result (is_canonical path.now ≡ true) }
{
    w.put_byte(8)?;
    w.put_path(path)?;
    Ok(())
}

/// An answer: its kind and its fields.
pub(crate) fn put_answer(w: &mut Writer, answer: &Answer) -> Result<(), NoMemory>
    ensures puts { OnOk result (Puts (answer_piece answer.now) w.old w.new) }
    ensures typed { OnOk result (TypedAnswer answer.now) }
{
    match answer {
        Answer::Go => w.put_byte(0),
        Answer::Done => w.put_byte(1),
        Answer::Opened => w.put_byte(2),
        Answer::Piped => w.put_byte(3),
        Answer::Content(bytes) => put_text_answer(w, 4, bytes),
        Answer::Stat { kind, mode, empty } => {
            put_stat(w, kind_code(*kind), *mode, flag_code(*empty))
        }
        Answer::Names(names) => put_names(w, names),
        Answer::Text(text) => put_text_answer(w, 7, text),
        Answer::Place(path) => put_place(w, path),
        Answer::Same(same) => put_code_answer(w, 9, flag_code(*same)),
        Answer::Joined(status) => put_code_answer(w, 10, *status),
        Answer::No(errno) => put_code_answer(w, 11, errno_code(*errno)),
    }
}
