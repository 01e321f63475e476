// Examples worked out by the definitions, so that a reader sees what these say.
ghost use Rattle.std.specs.Prelude.{◌≡◌, ◌+◌, length};
ghost use Rattle.specifier.specs.Samples.{WorkedExamples, joins, normals, samples, ways};

/// How many worked requests, ways, joins and normal texts there are; each holds by the definitions.
pub fn worked_examples_hold() -> usize
    ensures counts_the_examples { result ≡ length samples + length ways + length joins + length normals }
    ensures each_example_holds { WorkedExamples }
{
    32
}
