// Examples worked out by the definitions, so that a reader sees what these say.
ghost use Rattle.std.specs.Prelude.{◌≡◌, ◌+◌, length};
ghost use Rattle.alias.specs.Samples.{WorkedExamples, touchings, tryings};

/// How many worked labels and tables there are; each holds by the definitions.
pub fn worked_examples_hold() -> usize
    ensures counts_the_examples { result ≡ length touchings + length tryings }
    ensures each_example_holds { WorkedExamples }
{
    36
}
