// Laws of reading.
ghost use Rattle.sh_arith.specs.Laws.{EachText, OneExpression, OneFault, NotBoth};

/// Each text is one expression, or has one fault. It does nothing.
pub fn one_reading()
    ensures each { EachText }
    ensures expression { OneExpression }
    ensures fault { OneFault }
    ensures not_both { NotBoth }
{}
