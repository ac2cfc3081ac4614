// The three demands hold, and what document 02's F-1 says of typed searches, F-2 of spans, F-3 of occurs, F-4 of filters that the walk reaches, F-5 of
// headings and F-6 of word families: specs/Demands.antt and Requests.antt state them, and the crate isn't proved unless proofs/ inhabits each. Nothing imports it.

#![tactic(auto)]

ghost use Rattle.theorems.specs.Demands.{Demand1, Demand2, Demand3};
ghost use Rattle.theorems.specs.Requests.{EarlyWayOut, Headings, OccursChosen, SpansRead, TypedSearches, WordFamilies};

pub fn demands_hold()
    ensures demand1 { Demand1 }
    ensures demand2 { Demand2 }
    ensures demand3 { Demand3 }
    ensures typed_searches { TypedSearches }
    ensures spans_read { SpansRead }
    ensures occurs_chosen { OccursChosen }
    ensures early_way_out { EarlyWayOut }
    ensures headings { Headings }
    ensures word_families { WordFamilies }
{}
