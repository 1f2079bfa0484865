// The steps of a file of sessions.
use rk_base::NoMemory;
use std::alloc::Global;

/// What is done with a folder, or looked at in it.
#[derive(Clone, Copy)]
pub enum StepKind {
    /// A fresh folder with the text as its script, and nothing else.
    Fresh,
    /// Another script.
    Script,
    /// A file is written.
    File,
    /// So many files are written, each with its number.
    Files,
    /// A directory is made.
    Dir,
    /// A file is removed.
    Removed,
    /// What the next build costs, in turns.
    Costs,
    /// A build: its status, its output and its error text.
    Build,
    /// What words behind the program's name ask for: its status, its output and its error text.
    Asked,
    /// What words ask for that begin with the program's name, or that are none: its status, its output and its error text.
    Called,
    /// Words that are no request.
    Refused,
    /// A build within so many turns is spent, and changes nothing.
    Spent,
    /// How many commands the last build launched, and the words of those that ran.
    Ran,
    /// A line of the last build's explanation.
    Why,
    /// What a file holds.
    Holds,
    /// Nothing stands there.
    Lacks,
    /// A directory stands there.
    Directory,
    /// The links, and the modes other than the usual ones.
    Attrs,
    /// What a file holds, in the first folder alone.
    Has,
    /// Nothing stands there, in the first folder alone.
    HasNot,
    /// Bytes are written to a file.
    Bytes,
    /// A file is cut after so many bytes.
    Cut,
    /// A bit of a byte is turned.
    Turned,
    /// A record of the database is changed.
    Record,
    /// What is no file or directory is put there.
    Special,
    /// A directory gets a name that is none.
    Odd,
    /// The call of the folder of this number fails, in what is asked next.
    Fails,
    /// The call of the folder of this number fails, in what is asked next, and where it is a write it leaves the text.
    Leaves,
    /// A put of output fails, in what is asked next.
    OutputCut,
    /// A put of error text fails, in what is asked next.
    ErrorsCut,
    /// What the last request changed, in order.
    Changes,
    /// How many calls of the folder the last request made.
    Calls,
    /// Which calls of the folder the last request made, in order.
    Order,
    /// How many commands a build starts.
    Starts,
    /// A line of the trace, behind its number.
    Traced,
    /// What a command asks, by what it is answered, and how it ends.
    Talk,
    /// How many calls of the folder of each kind words ask for, and that they bear each of them to fail.
    Stopped,
    /// No step has such a word.
    Unknown,
}

/// A step: its kind, what stands behind its word, and the texts below it.
#[derive(Drop)]
pub struct SessionStep {
    pub kind: StepKind,
    /// What stands behind its word.
    pub rest: String,
    /// The text below it.
    pub text: String,
    /// The error text below it.
    pub errors: String,
}

// The kind of step of each word.
const KINDS: [(&str, StepKind); 37] = [
    ("fresh", StepKind::Fresh),
    ("script", StepKind::Script),
    ("file", StepKind::File),
    ("files", StepKind::Files),
    ("dir", StepKind::Dir),
    ("removed", StepKind::Removed),
    ("costs", StepKind::Costs),
    ("build", StepKind::Build),
    ("asked", StepKind::Asked),
    ("called", StepKind::Called),
    ("refused", StepKind::Refused),
    ("spent", StepKind::Spent),
    ("ran", StepKind::Ran),
    ("why", StepKind::Why),
    ("holds", StepKind::Holds),
    ("lacks", StepKind::Lacks),
    ("directory", StepKind::Directory),
    ("attrs", StepKind::Attrs),
    ("has", StepKind::Has),
    ("has_not", StepKind::HasNot),
    ("bytes", StepKind::Bytes),
    ("cut", StepKind::Cut),
    ("turned", StepKind::Turned),
    ("record", StepKind::Record),
    ("special", StepKind::Special),
    ("odd", StepKind::Odd),
    ("fails", StepKind::Fails),
    ("leaves", StepKind::Leaves),
    ("output_cut", StepKind::OutputCut),
    ("errors_cut", StepKind::ErrorsCut),
    ("changes", StepKind::Changes),
    ("calls", StepKind::Calls),
    ("order", StepKind::Order),
    ("starts", StepKind::Starts),
    ("traced", StepKind::Traced),
    ("talk", StepKind::Talk),
    ("stopped", StepKind::Stopped),
];

fn kind_of(word: &str) -> StepKind {
    'kinds: for (it, kind) in KINDS.iter() {
        if *it == word {
            return *kind;
        }
    }
    StepKind::Unknown
}

fn push_end(text: &mut String, more: &str) -> Result<(), NoMemory> {
    text.push_str(more)?;
    Ok(())
}

fn push_line(text: &mut String, more: &str) -> Result<(), NoMemory> {
    text.push_str(more)?;
    text.push('\n')?;
    Ok(())
}

impl SessionStep {
    // The step of a line, without the texts below it.
    fn new(alloc: Global, line: &str) -> Result<SessionStep, NoMemory> {
        let (word, rest) = line.split_once(' ').unwrap_or((line, ""));
        Ok(SessionStep {
            kind: kind_of(word),
            rest: String::from_str(alloc, rest)?,
            text: String::new(alloc),
            errors: String::new(alloc),
        })
    }

    // Takes a line below it: `| ` before a line of text, `~ ` before one that no newline ends, `! ` before one of error text,
    // `!~ ` before one of error text that no newline ends.
    fn add(&mut self, line: &str) -> Result<(), NoMemory> {
        if let Some(more) = line.strip_prefix("~ ") {
            push_end(&mut self.text, more)
        } else if let Some(more) = line.strip_prefix("!~ ") {
            push_end(&mut self.errors, more)
        } else if let Some(more) = line.strip_prefix("! ") {
            push_line(&mut self.errors, more)
        } else {
            push_line(&mut self.text, line.strip_prefix("| ").unwrap_or(""))
        }
    }
}

fn is_text(line: &str) -> bool {
    line.starts_with('|') || line.starts_with('~') || line.starts_with('!')
}

fn is_comment(line: &str) -> bool {
    line.is_empty() || line.starts_with('#')
}

/// The steps of a file: a line for each, with its texts in the lines below it. Empty lines, and those that begin with `#`,
/// say nothing.
pub fn steps_of(alloc: Global, text: &str) -> Result<Vec<SessionStep>, NoMemory> {
    let mut steps: Vec<SessionStep> = Vec::new(alloc);
    'lines: for line in text.lines() {
        if is_text(line) {
            if let Some(step) = steps.last_mut() {
                step.add(line)?;
            }
        } else if !is_comment(line) {
            steps.push(SessionStep::new(alloc, line)?)?;
        }
    }
    Ok(steps)
}
