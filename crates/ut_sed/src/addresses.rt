// The addresses of a command (XCU sed, "Addresses in sed").
ghost use Rattle.std.specs.Prelude.{◌≡◌, MatchOption, Some, None, IfOk, option_map};
ghost use Rattle.ut_sed.specs.Commands.{address_of};
ghost use Rattle.ut_sed.specs.Reading.{addresses_of};
ghost use Rattle.ut_sed.specs.Scanning.{expression_at};
ghost use Rattle.ut_sed.specs.Scripts.{skipped, number_at, matched, lined, address_at, is_zero, after_comma, second_at, addresses_at};

use crate::address::Address;
use crate::reader::{Addresses, Reader};
use crate::scan::is_digit;
use rk_base::NoMemory;

impl Address {
    fn is_zero(&self) -> bool
        ensures { result ≡ is_zero (address_of self.now) }
    {
        match self {
            Address::Line(number) => *number == 0,
            Address::Last => false,
            Address::Matching(_) => false,
        }
    }
}

impl<'t> Reader<'t> {
    fn matching(&mut self) -> Result<Option<Option<Address>>, NoMemory>
        ensures { IfOk result (λ r. MatchOption r (matched (expression_at 47 self.old.rest.now) ≡ None) (λ a. matched (expression_at 47 self.old.rest.now) ≡ Some (option_map address_of a, self.new.rest.now))) }
    {
        match self.expression(b'/')? {
            None => Ok(None),
            Some(bre) => Ok(Some(Some(Address::Matching(bre)))),
        }
    }

    fn lined(&mut self) -> Result<Option<Option<Address>>, NoMemory>
        ensures { IfOk result (λ r. MatchOption r (lined (number_at self.old.rest.now) ≡ None) (λ a. lined (number_at self.old.rest.now) ≡ Some (option_map address_of a, self.new.rest.now))) }
    {
        match self.number()? {
            None => Ok(None),
            Some(number) => Ok(Some(Some(Address::Line(number)))),
        }
    }

    // An address, or none; `None` where what stands here isn't valid.
    fn address(&mut self) -> Result<Option<Option<Address>>, NoMemory>
        ensures { IfOk result (λ r. MatchOption r (address_at self.old.rest.now ≡ None) (λ a. address_at self.old.rest.now ≡ Some (option_map address_of a, self.new.rest.now))) }
    {
        match self.rest {
            [] => Ok(Some(None)),
            [b, more @ ..] => {
                if *b == b'$' {
                    self.rest = more;
                    return Ok(Some(Some(Address::Last)));
                }
                if *b == b'/' {
                    self.rest = more;
                    return self.matching();
                }
                if is_digit(*b) {
                    return self.lined();
                }
                Ok(Some(None))
            }
        }
    }

    // What stands behind the comma.
    fn second_of(&mut self, first: Address) -> Result<Option<Addresses>, NoMemory>
        ensures { IfOk result (λ r. MatchOption r (after_comma (address_of first) (address_at (skipped self.old.rest.now)) ≡ None) (λ a. after_comma (address_of first) (address_at (skipped self.old.rest.now)) ≡ Some (addresses_of a, self.new.rest.now))) }
    {
        self.skip_blanks();
        match self.address()? {
            None => Ok(None),
            Some(None) => Ok(None),
            Some(Some(second)) => Ok(Some(Addresses {
                first: Some(first),
                second: Some(second),
            })),
        }
    }

    fn second(&mut self, first: Address) -> Result<Option<Addresses>, NoMemory>
        ensures { IfOk result (λ r. MatchOption r (second_at (address_of first) self.old.rest.now ≡ None) (λ a. second_at (address_of first) self.old.rest.now ≡ Some (addresses_of a, self.new.rest.now))) }
    {
        match self.rest {
            [] => Ok(Some(Addresses {
                first: Some(first),
                second: None,
            })),
            [b, more @ ..] => {
                if *b == b',' {
                    self.rest = more;
                    return self.second_of(first);
                }
                Ok(Some(Addresses {
                    first: Some(first),
                    second: None,
                }))
            }
        }
    }

    /// No, one or two addresses; `None` where they aren't valid.
    pub(crate) fn addresses(&mut self) -> Result<Option<Addresses>, NoMemory>
        ensures { IfOk result (λ r. MatchOption r (addresses_at self.old.rest.now ≡ None) (λ a. addresses_at self.old.rest.now ≡ Some (addresses_of a, self.new.rest.now))) }
    {
        match self.address()? {
            None => Ok(None),
            Some(None) => Ok(Some(Addresses {
                first: None,
                second: None,
            })),
            Some(Some(first)) => {
                if first.is_zero() {
                    return Ok(None);
                }
                self.skip_blanks();
                self.second(first)
            }
        }
    }
}
