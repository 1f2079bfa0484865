// A world with numbers for the contents that were read of its files.
ghost use Rattle.std.specs.Prelude.{◌≡◌, ◌↔◌, [], IfOk, IfSome, IsTrue, OnOk, Some, is_some, slice_get, true};
ghost use Rattle.rk_base.specs.Text.{Text};
ghost use Rattle.rk_content.specs.Contents.{IsContent, Keeps};
ghost use Rattle.rk_tree.specs.Hierarchy.{file_bytes, node};
ghost use Rattle.rk_tree.specs.Full.{AreFrom, is_known};
ghost use Rattle.rk_kernel.specs.Causes.{Caused, Steadily};
ghost use Rattle.rk_kernel.specs.Do.{answered};
ghost use Rattle.rk_kernel.specs.Feet.{foot_by};
ghost use Rattle.rk_kernel.specs.Full.{file_seen, full_world};
ghost use Rattle.rk_kernel.specs.Numbers.{AreNumbered, IsFileContent, file_changed, file_read, without_number};
ghost use Rattle.rk_kernel.specs.World.{fresh};

use crate::{AnswerErr, Foot, World};
use rk_base::{Bytes, NoMemory};
use rk_calls::{Answer, Answerer, Call, Refs};
use rk_content::{ContentId, Contents, Numbering};
use rk_tree::{Fetch, Tree};
use std::alloc::Global;
use std::marker::Model;
use std::mem;

/// A world, and the contents that were read of its files, by numbers. Beside each file stands the number of its bytes, once
/// they were read whole and until it is written; so a file's bytes are hashed once, however often they are read. Files that
/// were read and have the same bytes share one text.
#[derive(Drop)]
pub struct NumberedWorld {
    world: World,
    contents: Contents,
    numbers: Vec<Option<ContentId>>,
}

impl Model for NumberedWorld {
    ghost use Rattle.rk_kernel.specs.Numbers.{AreNumbered, Numbered};

    ghost Value = { Numbered };

    ghost use Rattle.rk_kernel.specs.Numbers.{numbered_code};
    ghost use Rattle.rk_kernel.specs.World.{world_code};
    ghost use Rattle.rk_kernel.specs.contracts.description.Description as description;
    ghost use Rattle.rk_tree.specs.Hierarchy.{hierarchy_code};

    ghost coded = { numbered_code (world_code hierarchy_code description.the_row.coded) };

    ghost view = { λ w. record { world = w.world; contents = w.contents } };

    ghost invariant = { λ w. AreNumbered w.contents w.numbers.items w.world.tree };
}

// The numbers, without that of a file.
fn without_number(numbers: &mut Vec<Option<ContentId>>, file: Option<usize>)
    ensures { numbers.new.items ≡ without_number file numbers.old.items }
{
    match file {
        None => {}
        Some(n) => match numbers.get_mut(n) {
            None => {}
            Some(number) => *number = None,
        },
    }
}

// A number stands beside a file.
fn put_number(
    numbers: &mut Vec<Option<ContentId>>,
    contents: &Contents,
    world: &World,
    n: usize,
    id: ContentId,
) -> Result<(), NoMemory>
    requires numbered { AreNumbered contents.now numbers.old.items world.now.tree }
    requires number { slice_get contents.now id ≡ Some (file_bytes (node world.now.tree n)) }
    ensures { OnOk result (AreNumbered contents.now numbers.new.items world.now.tree) }
{
    let Some(len) = n.checked_add(1) else {
        return Ok(());
    };
    if numbers.len() < len {
        numbers.resize(len, None)?;
    }
    numbers[n] = Some(id);
    Ok(())
}

impl NumberedWorld {
    /// This world, and no contents.
    pub fn of(alloc: Global, world: World) -> NumberedWorld
        ensures { result ≡ record { world = world; contents = [] } }
    {
        NumberedWorld {
            world,
            contents: Contents::new(alloc),
            numbers: Vec::new(alloc),
        }
    }

    /// The world of a tree in which nothing has run, and no contents.
    pub fn new(alloc: Global, tree: Tree) -> Result<NumberedWorld, NoMemory>
        ensures { IfOk result (λ w. w ≡ record { world = fresh tree; contents = [] }) }
    {
        let world = World::new(alloc, tree)?;
        Ok(NumberedWorld::of(alloc, world))
    }

    /// The cells that a call reads and writes in the world, as `World::foot` tells them.
    pub fn foot(&self, refs: &Refs, call: &Call) -> Result<Foot, NoMemory>
        ensures foot { IfOk result (λ foot. foot ≡ foot_by self.now.world refs.now call.now) }
    {
        self.world.foot(refs, call)
    }

    /// The world alone.
    pub fn into_world(self) -> World
        ensures { result ≡ self.world }
    {
        let NumberedWorld { world, .. } = self;
        world
    }

    // The number that stands beside a file.
    fn number_at(&self, n: usize) -> Option<ContentId>
        ensures { IfSome result (λ id. slice_get self.now.contents id ≡ Some (file_bytes (node self.now.world.tree n))) }
    {
        match self.numbers.get(n) {
            None => None,
            Some(number) => *number,
        }
    }

    /// The number of a content, which gets one if it has none. The world stays as it is.
    pub fn intern(&mut self, bytes: &Bytes) -> Result<ContentId, NoMemory>
        ensures world { self.new.world ≡ self.old.world }
        ensures number { IfOk result (λ id. slice_get self.new.contents id ≡ Some bytes.now) }
        ensures kept { Keeps self.old.contents self.new.contents }
    {
        let id = self.contents.put(bytes)?;
        Ok(id)
    }

    /// Whether two contents are the same, by their numbers.
    pub fn is_same(&self, a: ContentId, b: ContentId) -> bool
        ensures { (text other : Text) → slice_get self.now.contents a ≡ Some text → slice_get self.now.contents b ≡ Some other → (IsTrue result ↔ (text ≡ other)) }
    {
        self.contents.is_same(a, b)
    }

    // The number of a file's bytes.
    fn number_of(&mut self, n: usize, bytes: &Bytes) -> Result<ContentId, NoMemory>
        requires { bytes.now ≡ file_bytes (node self.old.world.tree n) }
        ensures world { self.new.world ≡ self.old.world }
        ensures number { IfOk result (λ id. slice_get self.new.contents id ≡ Some bytes.now) }
        ensures kept { Keeps self.old.contents self.new.contents }
    {
        if let Some(id) = self.number_at(n) {
            return Ok(id);
        }
        let id = self.intern(bytes)?;
        let alloc = *self.numbers.allocator();
        let mut numbers = mem::replace(&mut self.numbers, Vec::new(alloc));
        put_number(&mut numbers, &self.contents, &self.world, n, id)?;
        self.numbers = numbers;
        Ok(id)
    }

    // The bytes of a file are known; where they weren't, it has no number yet. In full nothing changes.
    fn look_at<G: Fetch>(&mut self, fetch: &mut G, n: usize) -> Result<(), AnswerErr>
        requires { AreFrom (G.told fetch.old) self.old.world.tree }
        ensures known { OnOk result (is_known (node self.new.world.tree n) ≡ true) }
        ensures full { OnOk result (IfSome (G.told fetch.old) (λ told. full_world told self.new.world ≡ full_world told self.old.world)) }
        ensures from { OnOk result (AreFrom (G.told fetch.new) self.new.world.tree) }
        ensures contents { self.new.contents ≡ self.old.contents }
        ensures told { G.told fetch.new ≡ G.told fetch.old }
        ensures keeps { G.Keeps fetch.old fetch.new }
        ensures stays { OnOk result (G.Stays fetch.old fetch.new) }
        ensures steady { Steadily (G.steady fetch.old) (G.steady fetch.new) result }
        ensures caused { Caused (G.faults fetch.old) (G.faults fetch.new) result }
    {
        if self.world.is_known(n) {
            return Ok(());
        }
        let alloc = *self.numbers.allocator();
        let mut numbers = mem::replace(&mut self.numbers, Vec::new(alloc));
        without_number(&mut numbers, Some(n));
        self.world.look_at(fetch, n)?;
        self.numbers = numbers;
        Ok(())
    }

    // The bytes that a call looks at are known. In full nothing changes.
    fn look<G: Fetch>(&mut self, fetch: &mut G, refs: &Refs, call: &Call) -> Result<(), AnswerErr>
        requires { AreFrom (G.told fetch.old) self.old.world.tree }
        ensures sees { OnOk result (IfSome (file_seen self.old.world refs.now call.now) (λ n. is_known (node self.new.world.tree n) ≡ true)) }
        ensures full { OnOk result (IfSome (G.told fetch.old) (λ told. full_world told self.new.world ≡ full_world told self.old.world)) }
        ensures from { OnOk result (AreFrom (G.told fetch.new) self.new.world.tree) }
        ensures contents { self.new.contents ≡ self.old.contents }
        ensures told { G.told fetch.new ≡ G.told fetch.old }
        ensures keeps { G.Keeps fetch.old fetch.new }
        ensures stays { OnOk result (G.Stays fetch.old fetch.new) }
        ensures steady { Steadily (G.steady fetch.old) (G.steady fetch.new) result }
        ensures caused { Caused (G.faults fetch.old) (G.faults fetch.new) result }
    {
        match self.world.file_seen(refs, call) {
            None => Ok(()),
            Some(n) => self.look_at(fetch, n),
        }
    }

    /// The answer to a call, with the number of the content that it is, where a file was read whole by one Read. The bytes that
    /// it looks at are fetched first, where they aren't known yet; where they are told, the answer is that of the world in full.
    pub fn answer_fetched<G: Fetch>(
        &mut self,
        fetch: &mut G,
        refs: &mut Refs,
        call: &Call,
    ) -> Result<(Answer, Option<ContentId>), AnswerErr>
        // What wasn't read can be read.
        requires { AreFrom (G.told fetch.old) self.old.world.tree }
        ensures given { IfOk result (λ r. IfSome (G.told fetch.old) (λ told. record { answer = r.0; refs = refs.new; world = full_world told self.new.world } ≡ answered (full_world told self.old.world) refs.old call.now)) }
        ensures number { IfOk result (λ r. IfSome r.1 (λ id. IsContent self.new.contents id r.0)) }
        ensures kept { IfOk result (λ _. Keeps self.old.contents self.new.contents) }
        ensures from { OnOk result (AreFrom (G.told fetch.new) self.new.world.tree) }
        ensures told { G.told fetch.new ≡ G.told fetch.old }
        ensures keeps { G.Keeps fetch.old fetch.new }
        ensures stays { OnOk result (G.Stays fetch.old fetch.new) }
        ensures steady { Steadily (G.steady fetch.old) (G.steady fetch.new) result }

        // A read fault comes only where the count of failures rose, and an answer only where it didn't.
        ensures caused { Caused (G.faults fetch.old) (G.faults fetch.new) result }
    {
        self.look(fetch, refs, call)?;
        let answer = self.answer_id(refs, call)?;
        Ok(answer)
    }

    // The answer to a call. A file that it may change loses its number.
    fn asks(&mut self, refs: &mut Refs, call: &Call) -> Result<Answer, NoMemory>
        ensures given { IfOk result (λ a. record { answer = a; refs = refs.new; world = self.new.world } ≡ answered self.old.world refs.old call.now) }
        ensures contents { self.new.contents ≡ self.old.contents }
    {
        let alloc = *self.numbers.allocator();
        let changed = self.world.file_changed(refs, call);
        let mut numbers = mem::replace(&mut self.numbers, Vec::new(alloc));
        without_number(&mut numbers, changed);
        let answer = self.world.answer(refs, call)?;
        self.numbers = numbers;
        Ok(answer)
    }

    // These bytes, whose number this is, as the contents have them.
    fn text_of(&self, id: ContentId, bytes: &Bytes) -> Result<Bytes, NoMemory>
        requires { slice_get self.now.contents id ≡ Some bytes.now }
        ensures { IfOk result (λ b. b ≡ bytes.now) }
    {
        match self.contents.get(id) {
            None => bytes.copy(),
            Some(text) => text.copy(),
        }
    }

    // A file shares the text of its bytes.
    fn share(&mut self, n: usize, text: Bytes)
        requires { text ≡ file_bytes (node self.old.world.tree n) }
        ensures { self.new ≡ self.old }
    {
        self.world.share(n, text);
    }

    // An answer that is all that a file has, and its number. All files that have these bytes share one text.
    fn numbered(
        &mut self,
        n: usize,
        answer: Answer,
    ) -> Result<(Answer, Option<ContentId>), NoMemory>
        requires { IsFileContent self.old.world.tree n answer }
        ensures world { self.new.world ≡ self.old.world }
        ensures answer { IfOk result (λ r. r.0 ≡ answer) }
        ensures number { IfOk result (λ r. IfSome r.1 (λ id. IsContent self.new.contents id answer)) }
        ensures some { IfOk result (λ r. is_some r.1 ≡ true) }
        ensures kept { Keeps self.old.contents self.new.contents }
    {
        match answer {
            Answer::Content(bytes) => {
                let id = self.number_of(n, &bytes)?;
                let text = self.text_of(id, &bytes)?;
                let copy = text.copy()?;
                self.share(n, copy);
                Ok((Answer::Content(text), Some(id)))
            }
            _ => unreachable!(),
        }
    }

    /// The answer to a call, and the number of the content that it is: where a file was read whole by one Read, and nowhere
    /// else.
    pub fn answer_id(
        &mut self,
        refs: &mut Refs,
        call: &Call,
    ) -> Result<(Answer, Option<ContentId>), NoMemory>
        ensures given { IfOk result (λ r. record { answer = r.0; refs = refs.new; world = self.new.world } ≡ answered self.old.world refs.old call.now) }
        ensures number { IfOk result (λ r. IfSome r.1 (λ id. IsContent self.new.contents id r.0)) }
        ensures some { IfOk result (λ r. is_some r.1 ≡ is_some (file_read self.old.world refs.old call.now)) }
        ensures kept { Keeps self.old.contents self.new.contents }
    {
        let file = self.world.file_read(refs, call);
        let answer = self.asks(refs, call)?;
        match file {
            None => Ok((answer, None)),
            Some(n) => {
                let given = self.numbered(n, answer)?;
                Ok(given)
            }
        }
    }
}

impl Answerer for NumberedWorld {
    ghost use Rattle.std.specs.Prelude.{Some};
    ghost use Rattle.rk_kernel.specs.World.{World};
    ghost use Rattle.rk_kernel.specs.Do.{answered};
    ghost use Rattle.rk_kernel.specs.Fitting.{answered-fits};

    type Stop = NoMemory;

    ghost Meaning = { World };

    ghost told = { λ it. Some it.world };

    ghost given = { answered };

    // Want of memory alone stops it, which says nothing.
    ghost Stops = { λ before now stop. Unit {0} };

    fn answer(&mut self, refs: &mut Refs, call: &Call) -> Result<Answer, NoMemory> {
        self.asks(refs, call)
    }

    ghost fitting = { answered-fits };

    ghost memory = { λ before now want stop gives. tt };
}

impl Numbering for NumberedWorld {
    ghost contents = { λ it. it.contents };

    ghost Keeps = { λ before now. Unit {0} };

    ghost Stays = { λ before now. Unit {0} };

    ghost Fails = { λ before now stop. Unit {0} };

    fn answer_id(
        &mut self,
        refs: &mut Refs,
        call: &Call,
    ) -> Result<(Answer, Option<ContentId>), NoMemory> {
        NumberedWorld::answer_id(self, refs, call)
    }

    fn intern(&mut self, bytes: &Bytes) -> Result<ContentId, NoMemory> {
        NumberedWorld::intern(self, bytes)
    }

    fn is_same(&self, a: ContentId, b: ContentId) -> bool {
        NumberedWorld::is_same(self, a, b)
    }

    ghost keeps_itself = { λ x. tt };

    ghost keeps_on = { λ x y z s t. tt };

    ghost stays_itself = { λ x. tt };

    ghost stays_on = { λ x y z s t. tt };

    ghost fails_on = { λ x y z stop s t. tt };

    ghost fails_want = { λ x y want stop s gives. tt };
}
