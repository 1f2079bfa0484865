// Lines as someone types them at a terminal, over a folder in memory, with what each writes.
use crate::calls::Rkr;
use rk_base::{NoMemory, Path};
use rk_folder::{MemFolder, MemSink, Standing};
use rk_runner::Program;
use std::alloc::Global;
use std::str;

// The folder, and all that was shown so far.
#[derive(Drop)]
struct Terminal {
    alloc: Global,
    folder: MemFolder,
    screen: String,
}

// A file of the root. No line of a session names a faulty one, so a name that is none counts as want of memory.
fn in_root(alloc: Global, name: &str) -> Result<Path, NoMemory> {
    let text = format!(in alloc; "/{name}")?;
    match Path::parse(alloc, text.as_bytes()) {
        Ok(path) => Ok(path),
        Err(_) => Err(NoMemory),
    }
}

fn text_of(bytes: &[u8]) -> &str {
    str::from_utf8(bytes).unwrap_or("not text\n")
}

impl Terminal {
    // `cat` of some files.
    fn cat(&mut self, names: &str) -> Result<(), NoMemory> {
        'names: for name in names.split(' ') {
            let path = in_root(self.alloc, name)?;
            match self.folder.at(&path) {
                Some(Standing::File(bytes)) => self.screen.push_str(text_of(bytes.as_slice()))?,
                _ => self.screen.push_str("no such file\n")?,
            }
        }
        Ok(())
    }

    // `echo` of a text into a file.
    fn echo(&mut self, text: &str, name: &str) -> Result<(), NoMemory> {
        let path = in_root(self.alloc, name)?;
        let line = format!(in self.alloc; "{text}\n")?;
        let is_put = self.folder.set_file(self.alloc, &path, line.as_bytes())?;
        if is_put {
            return Ok(());
        }
        self.screen.push_str("not written\n")?;
        Ok(())
    }

    // The program, by its words.
    fn rkr(&mut self, line: &str) -> Result<(), NoMemory> {
        let mut words = Vec::new(self.alloc);
        'words: for word in line.split(' ') {
            words.push(String::from_str(self.alloc, word)?)?;
        }
        let out = MemSink::new(self.alloc);
        let err = MemSink::new(self.alloc);
        let built = Rkr.invoke(self.alloc, &words, &mut self.folder, out, err);
        self.screen.push_str(text_of(built.out.bytes()))?;
        self.screen.push_str(text_of(built.err.bytes()))?;
        Ok(())
    }

    fn carry_out(&mut self, command: &str) -> Result<(), NoMemory> {
        if let Some(names) = command.strip_prefix("cat ") {
            return self.cat(names);
        }
        match command.strip_prefix("echo ") {
            Some(rest) => {
                let (text, name) = rest.rsplit_once(" > ").unwrap_or((rest, "out"));
                self.echo(text, name)
            }
            None => self.rkr(command),
        }
    }

    // A line of a session; one that begins with `$ ` is shown.
    fn take(&mut self, line: &str) -> Result<(), NoMemory> {
        match line.strip_prefix("$ ") {
            Some(command) => {
                self.screen.push_str(line)?;
                self.screen.push_str("\n")?;
                self.carry_out(command)
            }
            None => self.carry_out(line),
        }
    }
}

/// What a terminal shows where these lines are typed: each line that begins with `$ `, and what its command writes. The commands
/// are `cat FILE ..`, `echo TEXT > FILE`, where the last `>` counts, and those of the program; the files are of one folder in memory, which is empty at first.
pub(crate) fn screen_of(alloc: Global, lines: &str) -> Result<String, NoMemory> {
    let mut terminal = Terminal {
        alloc,
        folder: MemFolder::new(alloc)?,
        screen: String::new(alloc),
    };
    'lines: for line in lines.lines() {
        terminal.take(line)?;
    }
    let Terminal { screen, .. } = terminal;
    Ok(screen)
}
