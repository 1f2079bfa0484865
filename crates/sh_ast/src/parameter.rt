// Parameters.
ghost use Rattle.std.specs.Prelude.{◌≡◌};
ghost use Rattle.sh_ast.specs.Parameters.{spelling};

use rk_base::Bytes;

/// A parameter (XCU 2.5).
#[derive(Drop)]
pub enum Parameter {
    /// The variable of this name (XCU 2.5.3).
    Variable(Bytes),
    /// A positional parameter (XCU 2.5.1), by its digits as they are written; they aren't `0` alone.
    Positional(Bytes),
    /// `@`: the positional parameters, each by itself (XCU 2.5.2).
    At,
    /// `*`: the positional parameters, joined.
    Asterisk,
    /// `#`: how many positional parameters there are.
    Count,
    /// `?`: the exit status of the last command.
    Status,
    /// `0`: the name of the shell or of its script.
    Zero,
}

impl Parameter {
    /// The parameter as it is written between `${` and `}`.
    pub fn spelling(&self) -> &[u8]
        ensures { result.now ≡ spelling self.now }
    {
        match self {
            Parameter::Variable(name) => name.as_slice(),
            Parameter::Positional(digits) => digits.as_slice(),
            Parameter::At => b"@",
            Parameter::Asterisk => b"*",
            Parameter::Count => b"#",
            Parameter::Status => b"?",
            Parameter::Zero => b"0",
        }
    }
}
