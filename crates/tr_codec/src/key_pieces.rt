// The pieces of keys and of descriptors, put by a writer.
ghost use Rattle.std.specs.Prelude.{◌≡◌, ◌<◌, ◌^◌, OnOk};
ghost use Rattle.std.specs.List.{AllByRecursion};
ghost use Rattle.tr_codec.specs.Fits.{FitsKey};
ghost use Rattle.tr_parts.specs.Piece.{blob, each, counted};
ghost use Rattle.tr_codec.specs.Spelling.{var_piece, key_piece, pair_piece};
ghost use Rattle.tr_codec.specs.Puts.{Puts};

use crate::writer::Writer;
use rk_base::{Bytes, NoMemory, Var};
use rk_calls::Key;

fn put_words(w: &mut Writer, words: &[Bytes]) -> Result<(), NoMemory>
    ensures { OnOk result (Puts (counted blob words.now) w.old w.new) }
{
    w.put_number(words.len() as u64)?;
    'words: for word in words {
        w.put_blob(word)?;
    }
    Ok(())
}

fn put_var(w: &mut Writer, var: &Var) -> Result<(), NoMemory>
    ensures { OnOk result (Puts (var_piece var.now) w.old w.new) }
{
    w.put_blob(&var.name)?;
    w.put_blob(&var.value)?;
    Ok(())
}

fn put_vars(w: &mut Writer, vars: &[Var]) -> Result<(), NoMemory>
    ensures { OnOk result (Puts (counted var_piece vars.now) w.old w.new) }
{
    w.put_number(vars.len() as u64)?;
    'vars: for var in vars {
        put_var(w, var)?;
    }
    Ok(())
}

pub(crate) fn put_key(w: &mut Writer, key: &Key) -> Result<(), NoMemory>
    ensures puts { OnOk result (Puts (key_piece key.now) w.old w.new) }
    ensures fits { OnOk result (FitsKey key.now) }
{
    put_words(w, key.argv().as_slice())?;
    w.put_path(key.wd())?;
    put_vars(w, key.vars().as_slice())?;
    Ok(())
}

fn put_pair(w: &mut Writer, pair: (u8, u64)) -> Result<(), NoMemory>
    ensures puts { OnOk result (Puts (pair_piece pair) w.old w.new) }
    ensures range { pair.1 < 2 ^ 64 }
{
    w.put_byte(pair.0)?;
    w.put_number(pair.1)?;
    Ok(())
}

pub(crate) fn put_pairs(w: &mut Writer, pairs: &[(u8, u64)]) -> Result<(), NoMemory>
    ensures puts { OnOk result (Puts (counted pair_piece pairs.now) w.old w.new) }
    ensures numbers { OnOk result (AllByRecursion (λ pair. pair.1 < 2 ^ 64) pairs.now) }
{
    w.put_number(pairs.len() as u64)?;
    'pairs: for pair in pairs {
        put_pair(w, *pair)?;
    }
    Ok(())
}
