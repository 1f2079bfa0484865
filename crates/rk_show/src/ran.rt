// The lines of what ran, and why.
ghost use Rattle.std.specs.Prelude.{◌≡◌, ◌++◌, OnOk, codes};
ghost use Rattle.std.specs.Fmt.{decimal};
ghost use Rattle.rk_show.specs.Ran.{launched_line, ran_line, why_text};

use crate::command::{add_command, add_number};
use rk_base::NoMemory;
use rk_calls::Key;

/// Why a command ran.
#[derive(Clone, Copy, Debug, PartialEq, Eq)]
pub enum Why {
    /// Nothing is recorded of it.
    NoRecord,
    /// This step, from 1 on, is the first that was answered otherwise than recorded.
    Differs { step: u64 },
}

fn add_why(out: &mut Vec<u8>, why: Why) -> Result<(), NoMemory>
    ensures { OnOk result (out.new.items ≡ out.old.items ++ why_text why) }
{
    match why {
        Why::NoRecord => {
            out.extend_from_slice(b"no record")?;
            Ok(())
        }
        Why::Differs { step } => {
            out.extend_from_slice(b"step ")?;
            add_number(out, step)?;
            out.extend_from_slice(b" differs")?;
            Ok(())
        }
    }
}

/// `rkr: ran WORDS in WD #ORDINAL: no record`, or `.. step K differs`, and a newline, put after a text.
#[tactic(auto, unfolding(crate::specs::Ran::ran_line))]
pub fn add_ran(out: &mut Vec<u8>, key: &Key, ordinal: u64, why: Why) -> Result<(), NoMemory>
    ensures { OnOk result (out.new.items ≡ out.old.items ++ ran_line key.now ordinal why) }
{
    out.extend_from_slice(b"rkr: ran ")?;
    add_command(out, key, ordinal)?;
    out.extend_from_slice(b": ")?;
    add_why(out, why)?;
    out.push(b'\n')?;
    Ok(())
}

// A number, and the line ends.
fn end_with(out: &mut Vec<u8>, n: u64) -> Result<(), NoMemory>
    ensures { OnOk result (out.new.items ≡ out.old.items ++ (decimal n ++ codes "\n")) }
{
    add_number(out, n)?;
    out.push(b'\n')?;
    Ok(())
}

/// `rkr: launched L, ran R` and a newline, put after a text.
#[tactic(auto, unfolding(crate::specs::Ran::launched_line))]
pub fn add_launched(out: &mut Vec<u8>, launched: u64, ran: u64) -> Result<(), NoMemory>
    ensures { OnOk result (out.new.items ≡ out.old.items ++ launched_line launched ran) }
{
    out.extend_from_slice(b"rkr: launched ")?;
    add_number(out, launched)?;
    out.extend_from_slice(b", ran ")?;
    end_with(out, ran)?;
    Ok(())
}
