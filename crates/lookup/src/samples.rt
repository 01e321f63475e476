// Lookups worked out by the definition, so that a reader sees what it says.
ghost use Rattle.std.specs.Prelude.{◌≡◌, ◌+◌, length};
ghost use Rattle.lookup.specs.Samples.{
  EachCallLeavesItsBytes,
  EachCallLeavesItsMemory,
  EachSampleHolds,
  SomeRequestIsQuiet,
  calls,
  memories,
  samples,
};

/// How many worked lookups there are; each holds by the definition.
pub fn worked_lookups_hold() -> usize
    ensures counts_the_lookups { result ≡ length samples + length calls + length memories }
    ensures each_lookup_holds { EachSampleHolds }
    ensures each_call_leaves_its_bytes { EachCallLeavesItsBytes }
    ensures each_call_leaves_its_memory { EachCallLeavesItsMemory }
    ensures some_request_is_quiet { SomeRequestIsQuiet }
{
    55
}
