//! The laws of operators, of values in the order of their places, and of results that are words.
ghost use Rattle.agreement_rules.specs.Operators.{OperatorsAgree, ValuesAreArranged};
ghost use Rattle.agreement_rules.specs.Results.{ResultsAreWords};

/// The law of operators: where the own code of a leaf, a check, a conversion, an index or an operator stands by itself, the
/// machine takes the words of its operands' values to the words of the value that it means, or raises there the predeclared
/// signal that is raised there. Up to there it spends no turn and changes no variable, no global and no other activation.
#[tactic(auto, using(crate::proofs::Agreement::operators_agree))]
pub fn operators_agree()
    ensures { OperatorsAgree }
{}

/// Values in order: the rolls of a constructor, a call or a raise bring the words of its values, which stand on the operand
/// stack in the order of the text, into the order of their places, whatever lies under them. They write no variable and no
/// global, and raise nothing.
#[tactic(auto, using(crate::proofs::Arranged::values_are_arranged))]
pub fn values_are_arranged()
    ensures { ValuesAreArranged }
{}

/// Results are words of 16 bits, where the operands are words or LONG numbers: those of checks, conversions, indexes,
/// operators, negation and tests, and the bytes of a string.
#[tactic(auto, using(crate::proofs::Results::results_are_words))]
pub fn results_are_words()
    ensures { ResultsAreWords }
{}
