// The samples of classes and gaps (RULES 12.1), proved as rows under one claim.
#![tactic(auto)]

ghost use Rattle.samples.specs.Samples.{samples, Each};

// The claim is about the definitions that the library's calls keep to; the answer itself says nothing.
pub fn samples_hold() -> bool
    ensures { Each samples }
{
    true
}
