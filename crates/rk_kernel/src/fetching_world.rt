// A world whose files are fetched when they are looked at.
ghost use Rattle.std.specs.Prelude.{◌≡◌, ◌↔◌, IfOk, IfSome, IsTrue, OnOk, Option, Some, option_map, slice_get, false};
ghost use mathlib.Core.HLevel.{→_prop};
ghost use Rattle.rk_tree.specs.Full.{AreFrom, AreFrom-prop};
ghost use Rattle.rk_kernel.specs.Full.{full_world};

use crate::{AnswerErr, NumberedWorld};
use rk_base::{Bytes, NoMemory};
use rk_calls::{Answer, Answerer, Call, Refs};
use rk_content::{ContentId, Numbering};
use rk_tree::Fetch;

/// A world, and what fetches the bytes of its files as they are looked at: it means the world in full. Once a call has no answer
/// it is given up.
#[derive(Drop)]
pub struct FetchingWorld<'a, G: Fetch> {
    pub world: &'a mut NumberedWorld,
    pub fetch: &'a mut G,
    given_up: bool,
    ghost from: { given_up ≡ false → AreFrom (G.told fetch.now) world.now.world.tree } by { →_prop (AreFrom-prop (G.told fetch.now) world.now.world.tree) },
}

impl<'a, G: Fetch> FetchingWorld<'a, G> {
    /// A world whose unknown files can be fetched.
    pub fn new(world: &'a mut NumberedWorld, fetch: &'a mut G) -> FetchingWorld<'a, G>
        requires { AreFrom (G.told fetch.now) world.now.world.tree }
        ensures world { result.world.now ≡ world.entry.now }
        ensures fetch { result.fetch.now ≡ fetch.entry.now }
        ensures same_world { result.world.ghost_name ≡ world.entry.ghost_name }
        ensures same_fetch { result.fetch.ghost_name ≡ fetch.entry.ghost_name }
    {
        FetchingWorld {
            world,
            fetch,
            given_up: false,
        }
    }
}

impl<'a, G: Fetch> Answerer for FetchingWorld<'a, G> {
    ghost use Rattle.rk_kernel.specs.World.{World};
    ghost use Rattle.rk_kernel.specs.Do.{answered};
    ghost use Rattle.rk_kernel.specs.Fitting.{answered-fits};

    type Stop = AnswerErr;

    ghost Meaning = { World };

    // The world in full, where the bytes of its files are told.
    ghost told = { λ x. option_map (λ told. full_world told x.world.now.world) (G.told x.fetch.now) };

    ghost given = { answered };

    ghost Stops = { λ x y stop. Unit {0} };

    fn answer(&mut self, refs: &mut Refs, call: &Call) -> Result<Answer, AnswerErr> {
        let (answer, _) = self.answer_id(refs, call)?;
        Ok(answer)
    }

    ghost fitting = { answered-fits };

    ghost memory = { λ x y want stop gives. tt };
}

impl<'a, G: Fetch> Numbering for FetchingWorld<'a, G> {
    ghost use Rattle.std.proofs.Common.{refl, ◌∙◌};
    ghost use Rattle.rk_kernel.specs.Fetching.{Failed, Kept, Stayed, failed-on, failed-want, kept-itself, kept-on, stayed-itself, stayed-on};

    ghost contents = { λ x. x.world.now.contents };

    // The world and the fetch are the same, what is told of files, whether it is steady, and what the fetch keeps.
    ghost Keeps = { λ x y. (y.world.ghost_name ≡ x.world.ghost_name) × (y.fetch.ghost_name ≡ x.fetch.ghost_name) × Kept (G.told x.fetch.now) (G.told y.fetch.now) (G.steady x.fetch.now) (G.steady y.fetch.now) (G.Keeps x.fetch.now y.fetch.now) };

    // No more calls of the fetch failed, and what it leaves as it was besides; and what wasn't read can still be read.
    ghost Stays = { λ x y. Stayed (G.faults x.fetch.now) (G.faults y.fetch.now) (G.steady x.fetch.now) (G.steady y.fetch.now) (G.Stays x.fetch.now y.fetch.now × (AreFrom (G.told x.fetch.now) x.world.now.world.tree → AreFrom (G.told y.fetch.now) y.world.now.world.tree)) };

    // A read fault comes only where more failed, and never of a steady fetch.
    ghost Fails = { λ x y stop. Failed (G.faults x.fetch.now) (G.faults y.fetch.now) (G.steady x.fetch.now) stop };

    fn answer_id(
        &mut self,
        refs: &mut Refs,
        call: &Call,
    ) -> Result<(Answer, Option<ContentId>), AnswerErr> {
        if self.given_up {
            return Err(AnswerErr::NoMemory);
        }
        self.given_up = true;
        let given = self.world.answer_fetched(self.fetch, refs, call)?;
        self.given_up = false;
        Ok(given)
    }

    fn intern(&mut self, bytes: &Bytes) -> Result<ContentId, NoMemory> {
        self.world.intern(bytes)
    }

    fn is_same(&self, a: ContentId, b: ContentId) -> bool {
        self.world.is_same(a, b)
    }

    ghost keeps_itself = { λ x. (refl, refl, kept-itself (G.keeps_itself x.fetch.now)) };

    ghost keeps_on = { λ x y z s t. (t.0 ∙ s.0, t.1 ∙ s.1, kept-on (G.keeps_on x.fetch.now y.fetch.now z.fetch.now) s.2 t.2) };

    ghost stays_itself = { λ x. stayed-itself (G.stays_itself x.fetch.now, λ from. from) };

    ghost stays_on = { λ x y z s t. stayed-on (λ p q. (G.stays_on x.fetch.now y.fetch.now z.fetch.now p.0 q.0, λ from. q.1 (p.1 from))) s t };

    ghost fails_on = { λ x y z stop s t. failed-on _ _ _ _ _ stop s t };

    ghost fails_want = { λ x y want stop s gives. failed-want _ _ _ _ stop s gives };
}
