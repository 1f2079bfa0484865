// Laws over the definitions alone.
ghost use Rattle.sh_operands.specs.Laws.{OneReading, OneOutput};

/// A format of `printf` is made of the pieces that are read of it, and of no others; one of which none are read is made of
/// none (XBD 5).
pub fn one_format()
    ensures { OneReading }
{}

/// What is made of the operands of `printf` is what its format makes of them, used again as long as operands are left and it
/// takes any, and nothing else is (XCU 4, `printf`).
pub fn one_output()
    ensures { OneOutput }
{}
