// Examples worked out by the definitions, so that a reader sees what these say.
ghost use Rattle.std.specs.Prelude.{◌≡◌, length};
ghost use Rattle.candidates.specs.Samples.{EachSampleHolds, samples};

/// How many worked examples there are; each holds by the definitions.
pub fn worked_examples_hold() -> usize
    ensures counts_the_examples { result ≡ length samples }
    ensures each_example_holds { EachSampleHolds }
{
    11
}
