// The state of a shell, and copies of it for subshells.
ghost use Rattle.std.specs.Prelude.{◌≡◌, IfOk, OnOk};
ghost use Rattle.std.specs.FinMap.{insert};
ghost use Rattle.sh_redirect.specs.DescriptorTable.{set_slot};
ghost use Rattle.sh_means.specs.State.{Shell, back, define, with_slot};
ghost use Rattle.sh_means.specs.Views.{shell_of, back_to, function_of, functions_of};

use crate::functions::Functions;
use rk_base::{Bytes, NoMemory, Path};
use sh_ast::{Compound, Redirects};
use sh_redirect::DescriptorTable;
use sh_vars::{Env, Saved};
use std::alloc::{AllocError, Global};
use std::rc::Rc;

/// What a function does: its body, and the redirections that are made at each call.
#[derive(Drop)]
pub struct Callee {
    pub body: Rc<Compound>,
    pub redirects: Rc<Redirects>,
}

impl Clone for Callee {
    ghost is_clone = { λ callee copy. function_of copy ≡ function_of callee };

    fn clone(&self) -> Result<Callee, AllocError> {
        let body = self.body.clone()?;
        let redirects = self.redirects.clone()?;
        Ok(Callee { body, redirects })
    }
}

/// The state of a shell (XCU 2.12). Copies of it share the functions and the map of descriptors, each until one of them
/// changes it.
#[derive(Drop)]
pub struct State {
    pub env: Env,
    /// Whether `set -e` is on.
    pub errexit: bool,
    pub functions: Rc<Functions>,
    pub descriptors: Rc<DescriptorTable>,
}

/// What a shell was before a subshell.
#[derive(Drop)]
pub struct SavedState {
    vars: Saved,
    zero: Bytes,
    wd: Path,
    substituted: bool,
    nounset: bool,
    noglob: bool,
    errexit: bool,
    functions: Rc<Functions>,
    descriptors: Rc<DescriptorTable>,
}

const _: () = prove!(size_of::<SavedState>() <= 88);

// Functions that other states share are copied first.
fn put_function(functions: &mut Rc<Functions>, name: &[u8], callee: Callee) -> Result<(), NoMemory>
    ensures { OnOk result (functions_of functions.new.value ≡ insert (functions_of functions.old.value) name.now (function_of callee)) }
{
    let own = Rc::make_mut(functions)?;
    own.put(name, callee)?;
    Ok(())
}

// A map that other states share is copied first.
fn set_slot(map: &mut Rc<DescriptorTable>, d: u8, n: Option<u64>) -> Result<(), NoMemory>
    ensures { OnOk result (map.new.value ≡ set_slot d n map.old.value) }
{
    let own = Rc::make_mut(map)?;
    own.set(d, n);
    Ok(())
}

impl State {
    /// A copy for the time of a subshell.
    pub fn save(&self, alloc: Global) -> Result<Box<SavedState>, NoMemory>
        ensures { IfOk result (λ s. (e : Shell) → back_to s.value e ≡ back (shell_of self.now) e) }
    {
        let vars = self.env.vars.save()?;
        let zero = self.env.zero.copy()?;
        let wd = self.env.wd.copy()?;
        let functions = self.functions.clone()?;
        let descriptors = self.descriptors.clone()?;
        let saved = SavedState {
            vars,
            zero,
            wd,
            substituted: self.env.substituted,
            nounset: self.env.nounset,
            noglob: self.env.noglob,
            errexit: self.errexit,
            functions,
            descriptors,
        };
        let boxed = Box::new(alloc, saved)?;
        Ok(boxed)
    }

    /// All is as it was but the status and the next local number.
    pub fn come_back(&mut self, saved: Box<SavedState>)
        ensures { shell_of self.new ≡ back_to saved.value (shell_of self.old) }
    {
        let SavedState {
            vars,
            zero,
            wd,
            substituted,
            nounset,
            noglob,
            errexit,
            functions,
            descriptors,
        } = Box::into_inner(saved);
        self.env.vars.restore(vars);
        self.env.zero = zero;
        self.env.wd = wd;
        self.env.substituted = substituted;
        self.env.nounset = nounset;
        self.env.noglob = noglob;
        self.errexit = errexit;
        self.functions = functions;
        self.descriptors = descriptors;
    }

    /// A name has this function from now on.
    pub fn define(&mut self, name: &[u8], callee: Callee) -> Result<(), NoMemory>
        ensures { OnOk result (shell_of self.new ≡ define name.now (function_of callee) (shell_of self.old)) }
    {
        put_function(&mut self.functions, name, callee)?;
        Ok(())
    }

    /// A descriptor stands for this from now on. Above 9 nothing changes.
    pub fn set_descriptor(&mut self, d: u8, n: Option<u64>) -> Result<(), NoMemory>
        ensures { OnOk result (shell_of self.new ≡ with_slot d n (shell_of self.old)) }
    {
        set_slot(&mut self.descriptors, d, n)?;
        Ok(())
    }
}
