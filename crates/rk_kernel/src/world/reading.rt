// Read.
ghost use Rattle.std.specs.Prelude.{◌≡◌, ◌<◌, ◌≤◌, IfOk, IfSome, drop, length, position, option_copied};
ghost use Rattle.rk_calls.specs.declared.call.Call.TheVariants.{Read, ReadLine};
ghost use Rattle.rk_tree.specs.Hierarchy.{file_bytes, node};
ghost use Rattle.rk_kernel.specs.World.{after_line, after_read, after_read_line, is_newline, line_end, line_of, rest_of, text_of};
ghost use Rattle.rk_kernel.specs.Do as all;

use crate::pipe::Pipe;
use crate::{Description, Source, World};
use rk_base::{Bytes, Errno, NoMemory};
use rk_calls::{Answer, Refs};
use rk_tree::NodeId;
use std::alloc::Global;

/// What stands after so many bytes.
fn after(text: &[u8], n: usize) -> &[u8]
    ensures { result.now ≡ drop n text.now }
{
    if n <= text.len() {
        text.split_at(n).1
    } else {
        b""
    }
}

// What is left in a pipe, shared where nothing of it was read; nothing where there is no pipe.
fn left_of(alloc: Global, pipe: Option<&Pipe>) -> Result<Bytes, NoMemory>
    ensures { IfOk result (λ b. b ≡ text_of (option_copied pipe.entry)) }
{
    match pipe {
        Some(pipe) => pipe.left(alloc),
        None => Bytes::from_slice(alloc, b""),
    }
}

// Its bytes.
fn left_in(pipe: Option<&Pipe>) -> &[u8]
    ensures { result.now ≡ text_of (option_copied pipe.entry) }
{
    match pipe {
        Some(pipe) => pipe.rest(),
        None => b"",
    }
}

fn newline(text: &[u8]) -> Option<usize>
    ensures place { result ≡ position is_newline text.now }
    ensures within { IfSome result (λ i. i < length text.now) }
{
    text.iter().position(|b| *b == b'\n')
}

// The first line of a text, with its newline.
fn line_of(text: &[u8]) -> &[u8]
    ensures { result.now ≡ line_of text.now }
{
    match newline(text) {
        None => text,
        Some(i) => text.split_at(i + 1).0,
    }
}

// How long the first line of a text is.
fn line_length(text: &[u8]) -> usize
    ensures within { result ≤ length text.now }
    ensures rest { drop result text.now ≡ after_line text.now }
{
    match newline(text) {
        None => text.len(),
        Some(i) => i + 1,
    }
}

// The offset after the line that begins at an offset.
fn line_end(text: &[u8], offset: usize) -> usize
    ensures { result ≡ line_end text.now offset }
{
    match newline(after(text, offset)) {
        None => text.len(),
        Some(i) => offset + (i + 1),
    }
}

impl World {
    // The bytes that are known of the file that is the node of a number.
    pub(super) fn file(&self, n: usize) -> &[u8]
        ensures { result.now ≡ file_bytes (node self.now.tree n) }
    {
        match self.tree.bytes(NodeId::new(n)) {
            Some(bytes) => bytes,
            None => b"",
        }
    }

    // The bytes of a file from an offset on; a whole file shares its own.
    fn file_from(&self, alloc: Global, n: usize, offset: usize) -> Result<Bytes, NoMemory>
        ensures { IfOk result (λ b. b ≡ drop offset (file_bytes (node self.now.tree n))) }
    {
        if offset == 0 {
            self.tree.copy_bytes(NodeId::new(n))
        } else {
            Bytes::from_slice(alloc, after(self.file(n), offset))
        }
    }

    // What there is to read.
    fn rest_of(&self, alloc: Global, offset: usize, source: Source) -> Result<Bytes, NoMemory>
        ensures { IfOk result (λ b. b ≡ rest_of self.now offset source) }
    {
        match source {
            Source::Node(n) => self.file_from(alloc, n, offset),
            Source::Pipe(p) => left_of(alloc, self.pipes.get(p)),
            Source::Output => Bytes::from_slice(alloc, b""),
            Source::ErrorText => Bytes::from_slice(alloc, b""),
            Source::Nothing => Bytes::from_slice(alloc, b""),
        }
    }

    // The offset goes to the end, and a pipe is emptied.
    fn after_read(&mut self, k: usize, d: Description)
        ensures { self.new ≡ after_read self.old k d d.source }
    {
        match d.source {
            Source::Node(n) => {
                let end = self.file(n).len();
                self.set_offset(k, d, end);
            }
            Source::Pipe(p) => {
                let all = left_in(self.pipes.get(p)).len();
                self.skip(p, all);
            }
            Source::Output => {}
            Source::ErrorText => {}
            Source::Nothing => {}
        }
    }

    /// Reads all that is left.
    pub(super) fn read(&mut self, refs: &Refs, r: u64) -> Result<Answer, NoMemory>
        ensures { IfOk result (λ a. record { answer = a; refs = refs.now; world = self.new } ≡ all.answered self.old refs.now (Read r)) }
    {
        match refs.at(r) {
            None => Ok(Answer::No(Errno::BadRef)),
            Some(k) => match self.description(k) {
                None => Ok(Answer::No(Errno::BadRef)),
                Some(d) => {
                    if !d.read {
                        return Ok(Answer::No(Errno::BadRef));
                    }
                    let bytes = self.rest_of(self.allocator(), d.offset, d.source)?;
                    self.after_read(k, d);
                    Ok(Answer::Content(bytes))
                }
            },
        }
    }

    // What there is to read up to and with the first newline.
    fn next_line(&self, alloc: Global, offset: usize, source: Source) -> Result<Bytes, NoMemory>
        ensures { IfOk result (λ b. b ≡ line_of (rest_of self.now offset source)) }
    {
        match source {
            Source::Node(n) => Bytes::from_slice(alloc, line_of(after(self.file(n), offset))),
            Source::Pipe(p) => Bytes::from_slice(alloc, line_of(left_in(self.pipes.get(p)))),
            Source::Output => Bytes::from_slice(alloc, b""),
            Source::ErrorText => Bytes::from_slice(alloc, b""),
            Source::Nothing => Bytes::from_slice(alloc, b""),
        }
    }

    // The offset goes after the line, and the line leaves the pipe.
    fn after_read_line(&mut self, k: usize, d: Description)
        ensures { self.new ≡ after_read_line self.old k d d.source }
    {
        match d.source {
            Source::Node(n) => {
                let end = line_end(self.file(n), d.offset);
                self.set_offset(k, d, end);
            }
            Source::Pipe(p) => {
                let line = line_length(left_in(self.pipes.get(p)));
                self.skip(p, line);
            }
            Source::Output => {}
            Source::ErrorText => {}
            Source::Nothing => {}
        }
    }

    /// Reads up to and with the first newline.
    pub(super) fn read_line(&mut self, refs: &Refs, r: u64) -> Result<Answer, NoMemory>
        ensures { IfOk result (λ a. record { answer = a; refs = refs.now; world = self.new } ≡ all.answered self.old refs.now (ReadLine r)) }
    {
        match refs.at(r) {
            None => Ok(Answer::No(Errno::BadRef)),
            Some(k) => match self.description(k) {
                None => Ok(Answer::No(Errno::BadRef)),
                Some(d) => {
                    if !d.read {
                        return Ok(Answer::No(Errno::BadRef));
                    }
                    let line = self.next_line(self.allocator(), d.offset, d.source)?;
                    self.after_read_line(k, d);
                    Ok(Answer::Content(line))
                }
            },
        }
    }
}
