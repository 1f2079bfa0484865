// What `y` and `s` put in place of bytes and matches (XCU sed, "Editing Commands in sed").
ghost use Rattle.std.specs.Prelude.{◌≡◌, [], MatchOption, Some, None, IfOk};
ghost use Rattle.ut_bre.specs.Expressions.{expression};
ghost use Rattle.ut_sed.specs.Commands.{act_of};
ghost use Rattle.ut_sed.specs.declared.scan.Scan.TheVariants.{Raw};
ghost use Rattle.ut_sed.specs.Scanning.{text_from, expression_at, parts_at};
ghost use Rattle.ut_sed.specs.Scripts.{change_of, change_to, change_at, number_flag, flag_at, flags_at, substitution_of_parts, substitution_for, substitution_at};

use crate::change::Change;
use crate::command::{Act, Substitution};
use crate::reader::{Flags, Reader};
use crate::scan::{Scan, is_delimiter};
use rk_base::{Bytes, NoMemory};
use ut_bre::Bre;

impl<'t> Reader<'t> {
    // The second string of `y`.
    fn change_of(&mut self, d: u8, from: &[u8]) -> Result<Option<Act>, NoMemory>
        ensures { IfOk result (λ r. MatchOption r (change_of from.now (text_from d Raw [] self.old.rest.now) ≡ None) (λ a. change_of from.now (text_from d Raw [] self.old.rest.now) ≡ Some (act_of a, self.new.rest.now))) }
    {
        match self.text(d, Scan::Raw)? {
            None => Ok(None),
            Some(to) => {
                if from.len() != to.len() {
                    return Ok(None);
                }
                let from = Bytes::from_slice(self.alloc, from)?;
                let to = Bytes::new(self.alloc, to)?;
                let change = Change::new(self.alloc, from, to)?;
                Ok(Some(Act::Change(change)))
            }
        }
    }

    fn change_to(&mut self, d: u8) -> Result<Option<Act>, NoMemory>
        ensures { IfOk result (λ r. MatchOption r (change_to d (text_from d Raw [] self.old.rest.now) ≡ None) (λ a. change_to d (text_from d Raw [] self.old.rest.now) ≡ Some (act_of a, self.new.rest.now))) }
    {
        match self.text(d, Scan::Raw)? {
            None => Ok(None),
            Some(from) => self.change_of(d, from.as_slice()),
        }
    }

    /// What stands behind a `y`; `None` where it isn't valid.
    pub(crate) fn change(&mut self) -> Result<Option<Act>, NoMemory>
        ensures { IfOk result (λ r. MatchOption r (change_at self.old.rest.now ≡ None) (λ a. change_at self.old.rest.now ≡ Some (act_of a, self.new.rest.now))) }
    {
        match self.rest {
            [] => Ok(None),
            [d, more @ ..] => {
                if !is_delimiter(*d) {
                    return Ok(None);
                }
                self.rest = more;
                self.change_to(*d)
            }
        }
    }

    fn number_flag(&mut self, flags: Flags) -> Result<Flags, NoMemory>
        ensures { IfOk result (λ f. number_flag flags flags.number self.old.rest.now ≡ (f, self.new.rest.now)) }
    {
        if flags.number.is_some() {
            return Ok(flags);
        }
        let before = self.rest;
        match self.number()? {
            None => {
                self.rest = before;
                Ok(flags)
            }
            Some(number) => {
                if number == 0 {
                    self.rest = before;
                    return Ok(flags);
                }
                Ok(Flags {
                    number: Some(number),
                    global: flags.global,
                    prints: flags.prints,
                })
            }
        }
    }

    // One flag that isn't there yet, where it stands here.
    fn flag(&mut self, flags: Flags) -> Result<Flags, NoMemory>
        ensures { IfOk result (λ f. flag_at flags self.old.rest.now ≡ (f, self.new.rest.now)) }
    {
        match self.rest {
            [] => Ok(flags),
            [b, more @ ..] => {
                if *b == b'g' && !flags.global {
                    self.rest = more;
                    return Ok(Flags {
                        number: flags.number,
                        global: true,
                        prints: flags.prints,
                    });
                }
                if *b == b'p' && !flags.prints {
                    self.rest = more;
                    return Ok(Flags {
                        number: flags.number,
                        global: flags.global,
                        prints: true,
                    });
                }
                self.number_flag(flags)
            }
        }
    }

    fn flags(&mut self) -> Result<Flags, NoMemory>
        ensures { IfOk result (λ f. flags_at self.old.rest.now ≡ (f, self.new.rest.now)) }
    {
        let none = Flags {
            number: None,
            global: false,
            prints: false,
        };
        let one = self.flag(none)?;
        let two = self.flag(one)?;
        self.flag(two)
    }

    // What stands for an expression, and the flags.
    fn substitution_of(&mut self, d: u8, bre: Bre) -> Result<Option<Act>, NoMemory>
        ensures { IfOk result (λ r. MatchOption r (substitution_of_parts (expression bre) (parts_at d (expression bre).groups self.old.rest.now) ≡ None) (λ a. substitution_of_parts (expression bre) (parts_at d (expression bre).groups self.old.rest.now) ≡ Some (act_of a, self.new.rest.now))) }
    {
        match self.parts(d, bre.groups())? {
            None => Ok(None),
            Some(parts) => {
                let flags = self.flags()?;
                Ok(Some(Act::Substitute(Substitution {
                    expression: bre,
                    parts,
                    first: flags.number.unwrap_or(1),
                    global: flags.global,
                    prints: flags.prints,
                })))
            }
        }
    }

    fn substitution_for(&mut self, d: u8) -> Result<Option<Act>, NoMemory>
        ensures { IfOk result (λ r. MatchOption r (substitution_for d (expression_at d self.old.rest.now) ≡ None) (λ a. substitution_for d (expression_at d self.old.rest.now) ≡ Some (act_of a, self.new.rest.now))) }
    {
        match self.expression(d)? {
            None => Ok(None),
            Some(bre) => self.substitution_of(d, bre),
        }
    }

    /// What stands behind an `s`; `None` where it isn't valid.
    pub(crate) fn substitution(&mut self) -> Result<Option<Act>, NoMemory>
        ensures { IfOk result (λ r. MatchOption r (substitution_at self.old.rest.now ≡ None) (λ a. substitution_at self.old.rest.now ≡ Some (act_of a, self.new.rest.now))) }
    {
        match self.rest {
            [] => Ok(None),
            [d, more @ ..] => {
                if !is_delimiter(*d) {
                    return Ok(None);
                }
                self.rest = more;
                self.substitution_for(*d)
            }
        }
    }
}
