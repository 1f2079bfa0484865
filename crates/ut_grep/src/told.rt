// What `grep` tells of its inputs.
ghost use Rattle.std.specs.Prelude.{◌≡◌, ◌+◌, ◌++◌, ◌||◌, IfOk, OnOk, nat_lt, if◌then◌else◌, [], ◌∷◌};
ghost use Rattle.std.specs.Fmt.{decimal};
ghost use Rattle.std.specs.List.{list_any};
ghost use Rattle.ut_filter.specs.Lines.{lines_of};
ghost use Rattle.ut_filter.specs.Outputs.{put, HasGrown};
ghost use Rattle.ut_grep.specs.Values.{grep_value};
ghost use Rattle.ut_grep.specs.Greps.{selects, prefix, number_of, row, rows, selected, count_line, told, name_of, brought_told, told_all, some_of, status, made_of};

use crate::grep::Grep;
use crate::occurs::is_same;
use crate::passing::next_number;
use crate::selects::Memory;
use rk_base::{Bytes, NoMemory};
use std::alloc::Global;
use ut_filter::{Grown, Input, Made, Output, refusal_lines};

fn put_number(alloc: Global, n: u64, output: &mut Output) -> Result<(), NoMemory>
    ensures { OnOk result (output.new ≡ put output.old (decimal n)) }
{
    let digits = format!(in alloc; "{n}")?;
    output.put(digits.as_bytes())?;
    Ok(())
}

fn name_of(operand: &Bytes) -> &[u8]
    ensures { result.now ≡ name_of operand.now }
{
    if is_same(operand.as_slice(), b"-") {
        b"(standard input)"
    } else {
        operand.as_slice()
    }
}

fn either(a: bool, b: bool) -> bool
    ensures { result ≡ a || b }
{
    a || b
}

// So many lines that the numbers end are more than memory can hold.
fn counted(count: u64, selects: bool) -> Result<u64, NoMemory>
    ensures { IfOk result (λ n. n ≡ (if selects then count + 1 else count)) }
{
    if selects {
        count.checked_add(1).ok_or(NoMemory)
    } else {
        Ok(count)
    }
}

impl Grep {
    #[tactic(auto, using(ut_filter::proofs::OutputLemmas::put_more, ut_filter::proofs::OutputLemmas::put_nothing))]
    fn put_prefix(&self, name: &[u8], output: &mut Output) -> Result<(), NoMemory>
        ensures { OnOk result (output.new ≡ put output.old (prefix (grep_value self.now) name.now)) }
    {
        if !self.manner.many {
            return Ok(());
        }
        output.put(name)?;
        output.put(b":")?;
        Ok(())
    }

    #[tactic(auto, using(ut_filter::proofs::OutputLemmas::put_more, ut_filter::proofs::OutputLemmas::put_nothing))]
    fn put_number_of(&self, alloc: Global, n: u64, output: &mut Output) -> Result<(), NoMemory>
        ensures { OnOk result (output.new ≡ put output.old (number_of (grep_value self.now) n)) }
    {
        if !self.manner.numbered {
            return Ok(());
        }
        put_number(alloc, n, output)?;
        output.put(b":")?;
        Ok(())
    }

    #[tactic(auto, using(ut_filter::proofs::OutputLemmas::put_more, ut_filter::proofs::OutputLemmas::put_nothing))]
    fn put_row(
        &self,
        alloc: Global,
        name: &[u8],
        n: u64,
        line: &[u8],
        output: &mut Output,
    ) -> Result<(), NoMemory>
        ensures { OnOk result (output.new ≡ put output.old (row (grep_value self.now) name.now n line.now)) }
    {
        self.put_prefix(name, output)?;
        self.put_number_of(alloc, n, output)?;
        output.put(line)?;
        output.put(b"\n")?;
        Ok(())
    }

    // A line, where it is selected, and whether it is.
    #[tactic(auto, using(ut_filter::proofs::OutputLemmas::put_more, ut_filter::proofs::OutputLemmas::put_nothing))]
    fn put_greped(
        &self,
        alloc: Global,
        name: &[u8],
        n: u64,
        line: &[u8],
        memory: &mut Memory,
        output: &mut Output,
    ) -> Result<bool, NoMemory>
        ensures output { OnOk result (output.new ≡ put output.old (if selects (grep_value self.now) line.now then row (grep_value self.now) name.now n line.now else [])) }
        ensures selects { IfOk result (λ b. b ≡ selects (grep_value self.now) line.now) }
    {
        if !self.selects(line, memory)? {
            return Ok(false);
        }
        self.put_row(alloc, name, n, line, output)?;
        Ok(true)
    }

    // The lines of a text that are selected, and how many they are.
    #[tactic(auto, using(ut_filter::proofs::OutputLemmas::put_more, ut_filter::proofs::OutputLemmas::put_nothing))]
    fn put_rows(
        &self,
        alloc: Global,
        name: &[u8],
        text: &[u8],
        output: &mut Output,
    ) -> Result<u64, NoMemory>
        ensures output { OnOk result (output.new ≡ put output.old (rows (grep_value self.now) name.now 1 (lines_of text.now))) }
        ensures count { IfOk result (λ n. n ≡ selected (grep_value self.now) text.now) }
    {
        let needed = self.needed();
        let mut memory = Memory::new(alloc);
        let mut number = 1u64;
        let mut count = 0u64;
        let mut rest = text;
        'lines: while let Some((passed, line, after)) = self.next_line(needed, rest) {
            let n = self.number_behind(number, passed)?;
            let selects = self.put_greped(alloc, name, n, line, &mut memory, output)?;
            count = counted(count, selects)?;
            number = next_number(n)?;
            rest = after;
        }
        Ok(count)
    }

    // How many lines of a text are selected.
    fn count(&self, alloc: Global, text: &[u8]) -> Result<u64, NoMemory>
        ensures { IfOk result (λ n. n ≡ selected (grep_value self.now) text.now) }
    {
        let needed = self.needed();
        let mut memory = Memory::new(alloc);
        let mut count = 0u64;
        let mut rest = text;
        'lines: while let Some((_, line, after)) = self.next_line(needed, rest) {
            let selects = self.selects(line, &mut memory)?;
            count = counted(count, selects)?;
            rest = after;
        }
        Ok(count)
    }

    // What is told of a text, and how many of its lines are selected.
    #[tactic(auto, using(ut_filter::proofs::OutputLemmas::put_more, ut_filter::proofs::OutputLemmas::put_nothing))]
    fn tell(
        &self,
        alloc: Global,
        name: &[u8],
        text: &[u8],
        output: &mut Output,
    ) -> Result<u64, NoMemory>
        ensures output { OnOk result (output.new ≡ put output.old (told (grep_value self.now) name.now text.now)) }
        ensures count { IfOk result (λ n. n ≡ selected (grep_value self.now) text.now) }
    {
        if self.manner.quiet {
            return self.count(alloc, text);
        }
        if self.manner.listed {
            return self.tell_name(alloc, name, text, output);
        }
        if self.manner.counted {
            return self.tell_count(alloc, name, text, output);
        }
        self.put_rows(alloc, name, text, output)
    }

    #[tactic(auto, using(ut_filter::proofs::OutputLemmas::put_more, ut_filter::proofs::OutputLemmas::put_nothing))]
    fn tell_name(
        &self,
        alloc: Global,
        name: &[u8],
        text: &[u8],
        output: &mut Output,
    ) -> Result<u64, NoMemory>
        ensures output { OnOk result (output.new ≡ put output.old (if nat_lt 0 (selected (grep_value self.now) text.now) then name.now ++ 10 ∷ [] else [])) }
        ensures count { IfOk result (λ n. n ≡ selected (grep_value self.now) text.now) }
    {
        let count = self.count(alloc, text)?;
        if count == 0 {
            return Ok(count);
        }
        output.put(name)?;
        output.put(b"\n")?;
        Ok(count)
    }

    #[tactic(auto, using(ut_filter::proofs::OutputLemmas::put_more, ut_filter::proofs::OutputLemmas::put_nothing))]
    fn tell_count(
        &self,
        alloc: Global,
        name: &[u8],
        text: &[u8],
        output: &mut Output,
    ) -> Result<u64, NoMemory>
        ensures output { OnOk result (output.new ≡ put output.old (count_line (grep_value self.now) name.now (selected (grep_value self.now) text.now))) }
        ensures count { IfOk result (λ n. n ≡ selected (grep_value self.now) text.now) }
    {
        let count = self.count(alloc, text)?;
        self.put_prefix(name, output)?;
        put_number(alloc, count, output)?;
        output.put(b"\n")?;
        Ok(count)
    }

    #[tactic(auto, using(ut_filter::proofs::OutputLemmas::put_more, ut_filter::proofs::OutputLemmas::put_nothing))]
    fn tell_input(
        &self,
        alloc: Global,
        input: &Input,
        output: &mut Output,
    ) -> Result<bool, NoMemory>
        ensures output { OnOk result (output.new ≡ put output.old (brought_told (grep_value self.now) input.now.operand input.now.brought)) }
        ensures some { IfOk result (λ b. b ≡ some_of (grep_value self.now) input.now) }
    {
        match &input.brought {
            Err(_) => Ok(false),
            Ok(text) => {
                let count = self.tell(alloc, name_of(&input.operand), text.as_slice(), output)?;
                Ok(count > 0)
            }
        }
    }

    // What is told of the inputs, and whether a line of theirs is selected.
    #[tactic(auto, using(ut_filter::proofs::OutputLemmas::put_more, ut_filter::proofs::OutputLemmas::put_nothing))]
    fn tell_all(
        &self,
        alloc: Global,
        inputs: &[Input],
        output: &mut Output,
    ) -> Result<bool, NoMemory>
        ensures output { OnOk result (output.new ≡ put output.old (told_all (grep_value self.now) inputs.now)) }
        ensures some { IfOk result (λ b. b ≡ list_any (some_of (grep_value self.now)) inputs.now) }
    {
        let mut some = false;
        'inputs: for input in inputs {
            let one = self.tell_input(alloc, input, output)?;
            some = either(some, one);
        }
        Ok(some)
    }

    fn status(&self, some: bool, errors: &Bytes) -> u8
        ensures { result ≡ status (grep_value self.now) some errors.now }
    {
        if self.manner.quiet && some {
            return 0;
        }
        if !errors.is_empty() {
            return 2;
        }
        if some { 0 } else { 1 }
    }

    // The output, of which so many bytes are held, and whether a line is selected.
    #[tactic(auto, using(ut_filter::proofs::OutputLemmas::grown_whole))]
    pub(crate) fn output(
        &self,
        alloc: Global,
        inputs: &[Input],
        room: usize,
    ) -> Result<(Grown, bool), NoMemory>
        ensures output { IfOk result (λ r. HasGrown (told_all (grep_value self.now) inputs.now) r.0) }
        ensures some { IfOk result (λ r. r.1 ≡ list_any (some_of (grep_value self.now)) inputs.now) }
    {
        let mut output = Output::new(alloc, room);
        let some = self.tell_all(alloc, inputs, &mut output)?;
        let grown = output.end(alloc)?;
        Ok((grown, some))
    }

    // What is made, where the output is this text, and a line is selected or not.
    pub(crate) fn made(
        &self,
        alloc: Global,
        inputs: &[Input],
        output: Bytes,
        some: bool,
    ) -> Result<Made, NoMemory>
        ensures { IfOk result (λ made. made ≡ made_of (grep_value self.now) inputs.now output some) }
    {
        let errors = refusal_lines(alloc, b"grep", inputs)?;
        let status = self.status(some, &errors);
        Ok(Made {
            output,
            errors,
            status,
        })
    }
}
