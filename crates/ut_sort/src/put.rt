// Lines as output.
ghost use Rattle.std.specs.Prelude.{◌≡◌, ◌∷◌, ◌++◌, [], List, IfOk, OnOk};
ghost use Rattle.rk_base.specs.Text.{Text};
ghost use Rattle.ut_sort.specs.Orders.{is_same};
ghost use Rattle.ut_sort.specs.Sorts.{text_of, unlike, distinct, once, texts};

use crate::line::Line;
use crate::sort::Sort;
use rk_base::NoMemory;

fn put_line(line: &[u8], output: &mut Vec<u8>) -> Result<(), NoMemory>
    ensures { OnOk result (output.new.items ≡ output.old.items ++ text_of (line.now ∷ [])) }
{
    output.extend_from_slice(line)?;
    output.push(b'\n')?;
    Ok(())
}

fn put_lines(lines: &[Line], output: &mut Vec<u8>) -> Result<(), NoMemory>
    ensures { OnOk result (output.new.items ≡ output.old.items ++ text_of (texts lines.now)) }
{
    'lines: for line in lines {
        put_line(line.text, output)?;
    }
    Ok(())
}

impl Sort {
    // The next line, unless it is the same as the one before, and the line that comes before what follows.
    fn put_unlike<'a>(
        &self,
        line: &'a [u8],
        next: &'a [u8],
        output: &mut Vec<u8>,
    ) -> Result<&'a [u8], NoMemory>
        ensures { IfOk result (λ last. (more : List Text) → output.new.items ++ text_of (unlike (is_same self.now) last.now more) ≡ output.old.items ++ text_of (unlike (is_same self.now) line.now (next.now ∷ more))) }
    {
        if self.is_same(line, next) {
            return Ok(line);
        }
        put_line(next, output)?;
        Ok(next)
    }

    fn put_unlike_all(
        &self,
        line: &[u8],
        lines: &[Line],
        output: &mut Vec<u8>,
    ) -> Result<(), NoMemory>
        ensures { OnOk result (output.new.items ≡ output.old.items ++ text_of (unlike (is_same self.now) line.now (texts lines.now))) }
    {
        let mut last = line;
        'lines: for next in lines {
            last = self.put_unlike(last, next.text, output)?;
        }
        Ok(())
    }

    fn put_distinct(&self, lines: &[Line], output: &mut Vec<u8>) -> Result<(), NoMemory>
        ensures { OnOk result (output.new.items ≡ output.old.items ++ text_of (distinct (is_same self.now) (texts lines.now))) }
    {
        match lines {
            [] => Ok(()),
            [line, more @ ..] => {
                put_line(line.text, output)?;
                self.put_unlike_all(line.text, more, output)
            }
        }
    }

    /// Lines that are in order, each once with `-u`.
    pub(crate) fn put(&self, lines: &[Line], output: &mut Vec<u8>) -> Result<(), NoMemory>
        ensures { OnOk result (output.new.items ≡ output.old.items ++ text_of (once self.now (texts lines.now))) }
    {
        if self.unique {
            self.put_distinct(lines, output)
        } else {
            put_lines(lines, output)
        }
    }
}
