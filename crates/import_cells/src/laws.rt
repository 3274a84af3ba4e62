//! The laws of shared binding.

ghost use Rattle.import_cells.specs.Laws.{EachIsAllowed, OwnAsksAreInOrder, IsInitialOrBound, ChangesOnce, StaysBound, NewAfterFirst, FirstSeat, KnowsAfter, SeatIsAllowed, NextAnswers, RuleSays};

/// Over every list of events in which a cell is asked only after its `first` cells are bound, the answers of
/// each worker are allowed.
pub fn answers_are_allowed()
    ensures each { EachIsAllowed }
    // So it is where each worker asks the `first` cells itself.
    ensures in_order { OwnAsksAreInOrder }
{}

/// Each word changes at most once, from its initial to its one bound value, and not before its `first` cells
/// are bound.
pub fn words_change_once()
    ensures either { IsInitialOrBound }
    ensures once { ChangesOnce }
    ensures stays { StaysBound }
    ensures first { NewAfterFirst }
{}

/// What a seat has asked and seen after its calls, as a function of the seat before and of the answers.
pub fn what_a_seat_knows()
    ensures after { KnowsAfter }
    // The first seat has the whole share, and has asked eager cells alone.
    ensures first { FirstSeat }
{}

/// The answers to the calls of one seat are allowed. They are so without events of other workers,
/// where the seat has the whole share and has asked eager cells alone.
pub fn seats_answers_are_allowed()
    ensures each { SeatIsAllowed }
    ensures load { NextAnswers }
{}

/// What the rule of the table says of the words and of all seats: where a cell's word isn't its initial value,
/// its `first` cells have their bound values and were asked with some seat.
pub fn what_the_rule_says()
    ensures { RuleSays }
{}
