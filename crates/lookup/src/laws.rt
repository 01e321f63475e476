// The laws of lookups stand on the number that bounds them.
ghost use Rattle.std.specs.Prelude.{◌≡◌};
ghost use Rattle.lookup.specs.Laws.{
  AnswerSaysIfTheLookupBegan,
  AtMost64RoundsRun,
  EndsInAPathOrAFault,
  FirstAcceptableCandidateIsHandedOut,
  NestingNeverShows,
  OnlyAcceptablePathsAreHandedOut,
  PlainLabelCoversOnlyWhatContinuesIt,
  TextAreaIsZeroedOrAsItWas,
};
ghost use Rattle.lookup.specs.Outcomes.{rounds_at_most};
ghost use Rattle.lookup.specs.Quiet.{
  NothingFoundIfNonePasses,
  QuietRequestEndsIn0Or22,
  QuietRequestFits,
  QuietRequestGivesTheFirst,
};
ghost use Rattle.lookup.specs.RuleLaws.{
  CallsAnswerByTheRules,
  DefinitionObeysTheRules,
  LookupsEndByTheRules,
  RulesGiveOneAnswer,
  RulesHoldOfThatEndAlone,
};

/// How many rounds a lookup runs at most, with what holds of lookups of at most so many rounds.
pub fn most_rounds() -> usize
    ensures is_the_limit { result ≡ rounds_at_most }
    ensures only_acceptable_paths_are_handed_out { OnlyAcceptablePathsAreHandedOut }
    ensures a_lookup_ends_in_a_path_or_a_fault { EndsInAPathOrAFault }
    ensures at_most_64_rounds_run { AtMost64RoundsRun }
    ensures answer_says_if_the_lookup_began { AnswerSaysIfTheLookupBegan }
    ensures text_area_is_zeroed_or_as_it_was { TextAreaIsZeroedOrAsItWas }
    ensures nesting_of_rounds_never_shows { NestingNeverShows }
    ensures first_acceptable_candidate_is_handed_out { FirstAcceptableCandidateIsHandedOut }
    ensures plain_label_covers_only_what_continues_it { PlainLabelCoversOnlyWhatContinuesIt }
    ensures quiet_request_fits { QuietRequestFits }
    ensures quiet_request_gives_the_first_acceptable_candidate { QuietRequestGivesTheFirst }
    ensures nothing_is_found_exactly_when_no_candidate_is_acceptable { NothingFoundIfNonePasses }
    ensures quiet_request_ends_in_a_path_or_22 { QuietRequestEndsIn0Or22 }
    ensures definition_obeys_the_rules { DefinitionObeysTheRules }
    ensures rules_give_one_answer { RulesGiveOneAnswer }
    ensures rules_hold_of_that_end_alone { RulesHoldOfThatEndAlone }
    ensures lookups_end_by_the_rules { LookupsEndByTheRules }
    ensures calls_answer_by_the_rules { CallsAnswerByTheRules }
{
    64
}
