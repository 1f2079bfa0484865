// What is built of a text, from the last of its marks to the first.
ghost use Rattle.std.specs.Prelude.{◌≡◌, ◌∷◌, IfOk, OnOk, map, length, option_map};
ghost use Rattle.sh_ast.specs.Words as w;
ghost use Rattle.sh_ast.specs.Commands as c;
ghost use Rattle.sh_nodes.specs.Nodes.{bodies_seen, word_told, words_seen};
ghost use Rattle.sh_tree.specs.Seen.{seen, state};
ghost use Rattle.sh_script.specs.States as st;
ghost use Rattle.sh_script.specs.Values as v;

use crate::rows::one;
use crate::taking::word_in;
use crate::value::Value;
use rk_base::{Bytes, NoMemory};
use sh_ast::{Assignment, Command, CommandList, Part, Redirect, SimpleCommand, Word};
use sh_nodes::{NewWord, Row, Shared};
use std::alloc::Global;
use std::collections::VecDeque;
use std::rc::Rc;

/// Goes over the marks of a text from the last one to the first, so that what stands behind a symbol is built before it. It has the
/// values of what was read, that of the first symbol on top; for what stands in no word, and each word that is being
/// read, the bodies of its substitutions; for the text, and each body of a here-document around what is read, the
/// here-documents' bodies that no operator has yet; and what nodes share.
#[derive(Drop)]
pub struct Builder {
    pub(crate) values: Vec<Value>,
    pub(crate) bodies: Vec<Vec<Rc<CommandList>>>,
    pub(crate) documents: Vec<VecDeque<Rc<Word>>>,
    pub(crate) shared: Shared,
}

impl Builder {
    /// Nothing was read.
    #[tactic(auto, unfolding(crate::specs::Seen::state))]
    pub fn new(alloc: Global) -> Result<Builder, NoMemory>
        ensures { IfOk result (λ b. state b ≡ st.start) }
    {
        let mut bodies = Vec::new(alloc);
        bodies.push(Vec::new(alloc))?;
        let mut documents = Vec::new(alloc);
        documents.push(VecDeque::new(alloc))?;
        Ok(Builder {
            values: Vec::new(alloc),
            bodies,
            documents,
            shared: Shared::new(alloc)?,
        })
    }

    /// Takes the value on top.
    #[tactic(auto, unfolding(crate::specs::Seen::state, crate::specs::Seen::seen, sh_script::specs::States::top, sh_script::specs::States::less))]
    pub fn pop(&mut self) -> Value
        ensures value { seen result ≡ st.top (state self.old) }
        ensures left { state self.new ≡ st.less (state self.old) }
        ensures bodies { (state self.new).bodies ≡ (state self.old).bodies }
        ensures documents { (state self.new).documents ≡ (state self.old).documents }
    {
        match self.values.pop() {
            Some(value) => value,
            None => Value::Nothing,
        }
    }

    /// Drops the value on top.
    pub fn skip(&mut self)
        ensures left { state self.new ≡ st.less (state self.old) }
        ensures bodies { (state self.new).bodies ≡ (state self.old).bodies }
        ensures documents { (state self.new).documents ≡ (state self.old).documents }
    {
        drop(self.pop());
    }

    /// Puts a value on top.
    #[tactic(auto, unfolding(crate::specs::Seen::state, sh_script::specs::States::with))]
    pub fn put(&mut self, value: Value) -> Result<(), NoMemory>
        ensures { OnOk result (state self.new ≡ st.with (seen value) (state self.old)) }
    {
        self.values.push(value)?;
        Ok(())
    }

    /// One command by itself.
    #[tactic(auto, unfolding(crate::specs::Seen::seen))]
    pub fn put_command(&mut self, alloc: Global, command: Command) -> Result<(), NoMemory>
        ensures { OnOk result (state self.new ≡ st.with (st.one_command (c.command command)) (state self.old)) }
    {
        let commands = one(alloc, command)?;
        self.put(Value::Commands(commands))
    }

    /// A part, the name of its parameter shared where it came lately.
    #[tactic(auto, unfolding(crate::specs::Seen::state))]
    pub fn part(&mut self, alloc: Global, part: Part) -> Result<Part, NoMemory>
        ensures part { IfOk result (λ p. w.part p ≡ w.part part) }
        ensures left { state self.new ≡ state self.old }
    {
        self.shared.part(alloc, part)
    }

    /// A variable's name, or what stands for itself, shared where it came lately.
    #[tactic(auto, unfolding(crate::specs::Seen::state))]
    pub fn text(&mut self, alloc: Global, text: Bytes) -> Result<Bytes, NoMemory>
        ensures text { IfOk result (λ b. b ≡ text) }
        ensures left { state self.new ≡ state self.old }
    {
        self.shared.text(alloc, text)
    }

    // A word as a node; one of one part with a text is shared where it came lately.
    #[tactic(auto, unfolding(crate::specs::Seen::state))]
    fn word(&mut self, alloc: Global, word: NewWord) -> Result<Rc<Word>, NoMemory>
        ensures word { IfOk result (λ r. c.word r.value ≡ word_told word) }
        ensures left { state self.new ≡ state self.old }
    {
        self.shared.word(alloc, word)
    }

    /// Takes the word on top, as a node.
    pub fn pop_word(&mut self, alloc: Global) -> Result<Rc<Word>, NoMemory>
        ensures word { IfOk result (λ r. c.word r.value ≡ v.word_in (st.top (state self.old))) }
        ensures left { OnOk result (state self.new ≡ st.less (state self.old)) }
    {
        let word = word_in(alloc, self.pop())?;
        self.word(alloc, word)
    }

    /// A simple command, out of its first word and of what else it is made of; one that is a part with a text alone is shared
    /// where it came lately.
    #[tactic(auto, unfolding(crate::specs::Seen::state))]
    pub fn named(
        &mut self,
        alloc: Global,
        name: NewWord,
        assignments: Row<Assignment>,
        words: Row<Rc<Word>>,
        redirects: Row<Redirect>,
    ) -> Result<Rc<SimpleCommand>, NoMemory>
        ensures command { IfOk result (λ r. c.simple_command r.value ≡ c.simply (c.assignments_of (map c.assignment assignments)) (c.words_of (word_told name ∷ words_seen words)) (c.redirects_of (map c.redirect redirects))) }
        ensures left { state self.new ≡ state self.old }
    {
        self.shared
            .named(alloc, name, assignments, words, redirects)
    }

    /// A word ends here.
    #[tactic(auto, unfolding(crate::specs::Seen::state, sh_script::specs::States::word_opened))]
    pub fn open_word(&mut self, alloc: Global) -> Result<(), NoMemory>
        ensures { OnOk result (state self.new ≡ st.word_opened (state self.old)) }
    {
        self.bodies.push(Vec::new(alloc))?;
        Ok(())
    }

    /// A word begins here: the bodies of its substitutions.
    #[tactic(auto, unfolding(crate::specs::Seen::state, sh_script::specs::States::front, sh_script::specs::States::word_closed))]
    pub fn close_word(&mut self, alloc: Global) -> Vec<Rc<CommandList>>
        ensures bodies { bodies_seen result.items ≡ st.front (state self.old).bodies }
        ensures left { state self.new ≡ st.word_closed (state self.old) }
    {
        match self.bodies.pop() {
            Some(bodies) => bodies,
            None => Vec::new(alloc),
        }
    }

    /// Adds the body of a substitution to its word, and answers its number there.
    #[tactic(auto, unfolding(crate::specs::Seen::state, sh_script::specs::States::front, sh_script::specs::States::with_body), using(crate::proofs::BuilderLemmas::body_added))]
    pub fn add_body(&mut self, body: Rc<CommandList>) -> Result<u64, NoMemory>
        ensures number { IfOk result (λ n. n ≡ length (st.front (state self.old).bodies)) }
        ensures body { OnOk result (state self.new ≡ st.with_body (c.commands body.value) (state self.old)) }
    {
        match self.bodies.pop() {
            None => Ok(0),
            Some(mut bodies) => {
                let number = bodies.len() as u64;
                bodies.push(body)?;
                self.bodies.push(bodies)?;
                Ok(number)
            }
        }
    }

    /// A here-document's body that is expanded ends here.
    #[tactic(auto, unfolding(crate::specs::Seen::state, sh_script::specs::States::word_opened, sh_script::specs::States::body_opened))]
    pub fn open_body(&mut self, alloc: Global) -> Result<(), NoMemory>
        ensures { OnOk result (state self.new ≡ st.body_opened (state self.old)) }
    {
        self.documents.push(VecDeque::new(alloc))?;
        self.open_word(alloc)
    }

    /// It begins here: the bodies of its substitutions.
    #[tactic(auto, unfolding(crate::specs::Seen::state, sh_script::specs::States::front, sh_script::specs::States::word_closed, sh_script::specs::States::body_closed))]
    pub fn close_body(&mut self, alloc: Global) -> Vec<Rc<CommandList>>
        ensures bodies { bodies_seen result.items ≡ st.front (state self.old).bodies }
        ensures left { state self.new ≡ st.body_closed (state self.old) }
    {
        let _documents = self.documents.pop();
        self.close_word(alloc)
    }

    /// A here-document's body is met.
    #[tactic(auto, unfolding(crate::specs::Seen::state, sh_script::specs::States::with_document))]
    pub fn add_document(&mut self, body: Rc<Word>) -> Result<(), NoMemory>
        ensures { OnOk result (state self.new ≡ st.with_document (c.word body.value) (state self.old)) }
    {
        match self.documents.pop() {
            None => Ok(()),
            Some(mut documents) => {
                documents.push_front(body)?;
                self.documents.push(documents)?;
                Ok(())
            }
        }
    }

    /// Takes the last body that no operator has.
    #[tactic(auto, unfolding(crate::specs::Seen::state, sh_script::specs::States::front, sh_script::specs::States::without_document), using(crate::proofs::BuilderLemmas::last_seen, crate::proofs::BuilderLemmas::but_last_seen))]
    pub fn take_document(&mut self) -> Result<Option<Rc<Word>>, NoMemory>
        ensures body { IfOk result (λ d. option_map (λ r. c.word r.value) d ≡ st.last (st.front (state self.old).documents)) }
        ensures left { OnOk result (state self.new ≡ st.without_document (state self.old)) }
    {
        match self.documents.pop() {
            None => Ok(None),
            Some(mut documents) => {
                let last = documents.pop_back();
                self.documents.push(documents)?;
                Ok(last)
            }
        }
    }
}
