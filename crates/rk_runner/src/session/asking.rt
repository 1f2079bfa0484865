// What is asked in a session, what the program told, and what it did to the folder.
use super::{Session, at, digits, status_shown};
use crate::program::{End, Program, WHOLE, ask_in};
use rk_base::NoMemory;
use rk_folder::{FolderCall, MemFolder};
use rk_sessions::{
    asks_change, calls_shown, changes_shown, db_of, has_numbered, reads_list, shown,
};

const USAGE: &str =
    "usage: rkr build [--steps N] [--explain] [--fresh] [--check] | check | trace [--json] | forget | gen SEED\n";

// Whether the folder was to be changed, where no sealed list was finished.
fn changes_unasked(asked: &[FolderCall]) -> bool {
    asks_change(asked) && !reads_list(asked)
}

impl<P: Program> Session<P> {
    // An end tells how many commands were launched, and how many ran, as the explanation does.
    pub(crate) fn count(&mut self, end: End) -> Result<(), NoMemory> {
        if let End::Ended { launched, ran } = end {
            let line = format!(in self.alloc; "rkr: launched {launched}, ran {ran}")?;
            self.why(line.as_str())?;
        }
        Ok(())
    }

    // Nothing is changed where a request is refused, unless a sealed list was finished first, and wrong words aren't followed by a call.
    pub(crate) fn untouched(&mut self, end: End) -> Result<(), NoMemory> {
        let is_wrong = match end {
            End::Usage => self.folder.calls() != self.calls,
            End::Refused | End::Spent => changes_unasked(self.folder.asked()),
            End::Ended { .. } | End::Other => false,
        };
        if is_wrong {
            self.tell("refusal", "changes", "none")?;
        }
        Ok(())
    }

    // What a line asks for, whose words begin with the program's name.
    fn ask(
        &mut self,
        status: &str,
        line: &str,
        output: &str,
        error_text: &str,
    ) -> Result<(), NoMemory> {
        self.builds = self.builds.saturating_add(1);
        self.begin_request();
        let cuts = (self.output, self.errors);
        let asked = ask_in(&self.program, self.alloc, line, &mut self.folder, cuts)?;
        self.output = WHOLE;
        self.errors = WHOLE;
        self.untouched(asked.end)?;
        let came = status_shown(self.alloc, &asked)?;
        self.tell(line, came.as_str(), status)?;
        self.tell("output", shown(asked.out.bytes()), output)?;
        self.tell("error text", shown(asked.err.bytes()), error_text)
    }

    // What a line asks for: the status that it is to end with, and the words behind the program's name.
    pub(crate) fn asked(
        &mut self,
        line: &str,
        output: &str,
        error_text: &str,
    ) -> Result<(), NoMemory> {
        let (status, words) = line.split_once(' ').unwrap_or((line, ""));
        let call = format!(in self.alloc; "rkr {words}")?;
        self.ask(status, call.as_str(), output, error_text)
    }

    // What a line asks for, with the program's name in it.
    pub(crate) fn called(
        &mut self,
        line: &str,
        output: &str,
        error_text: &str,
    ) -> Result<(), NoMemory> {
        let (status, words) = line.split_once(' ').unwrap_or((line, ""));
        self.ask(status, words, output, error_text)
    }

    // Words that are no request.
    pub(crate) fn refused(&mut self, words: &str) -> Result<(), NoMemory> {
        let call = format!(in self.alloc; "rkr {words}")?;
        self.ask("241", call.as_str(), "", USAGE)
    }

    // How many commands a build starts, by a line of the number and of whether the records are checked.
    pub(crate) fn starts(&mut self, line: &str) -> Result<(), NoMemory> {
        let (wanted, flag) = line.split_once(' ').unwrap_or((line, ""));
        self.builds = self.builds.saturating_add(1);
        self.begin_request();
        let is_checked = flag == "--check";
        let count = self
            .program
            .started(self.alloc, is_checked, &mut self.folder);
        let came = digits(self.alloc, count)?;
        self.tell("starts", came.as_str(), wanted)
    }

    // A line of the trace, behind its number.
    pub(crate) fn traced(&mut self, line: &str) -> Result<(), NoMemory> {
        let asked = ask_in(
            &self.program,
            self.alloc,
            "rkr trace",
            &mut self.folder,
            (WHOLE, WHOLE),
        )?;
        let trace = shown(asked.out.bytes());
        if has_numbered(trace, line) {
            return Ok(());
        }
        self.tell("trace", trace, line)
    }

    // A command asks just this, given these answers, and ends so: its record passes a check, in a folder of its own.
    pub(crate) fn talk(&mut self, words: &str, text: &str) -> Result<(), NoMemory> {
        let mut folder = MemFolder::new(self.alloc)?;
        folder.set_dir(&at(self.alloc, "/.rkr")?)?;
        let db = db_of(self.alloc, words, text)?;
        folder.set_file(self.alloc, &at(self.alloc, "/.rkr/db")?, db.as_slice())?;
        self.builds = self.builds.saturating_add(1);
        let asked = ask_in(
            &self.program,
            self.alloc,
            "rkr check",
            &mut folder,
            (WHOLE, WHOLE),
        )?;
        self.tell(words, shown(asked.out.bytes()), "records 1\n")?;
        self.tell(words, shown(asked.err.bytes()), "")
    }

    // What the last request changed.
    pub(crate) fn changed(&mut self, wanted: &str) -> Result<(), NoMemory> {
        let came = changes_shown(self.alloc, self.folder.asked())?;
        self.tell("changes", came.as_str(), wanted)
    }

    // Which calls of the folder the last request made.
    pub(crate) fn in_order(&mut self, wanted: &str) -> Result<(), NoMemory> {
        let came = calls_shown(self.alloc, self.folder.asked())?;
        self.tell("order", came.as_str(), wanted)
    }

    // How many calls the last request made.
    pub(crate) fn called_for(&mut self, wanted: &str) -> Result<(), NoMemory> {
        let calls = self.folder.calls().saturating_sub(self.calls);
        let came = digits(self.alloc, calls)?;
        self.tell("calls", came.as_str(), wanted)
    }
}
