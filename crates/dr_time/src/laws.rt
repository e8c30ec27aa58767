ghost use Rattle.dr_time.specs.Laws.{CountsFrom1970, NumbersOneDate, ReadsTheSpelled, ReadsAllSpelled, ReadsBack, StartsAtFirst, FindsFirst};

/// The day number of 1970-01-01 is 0.
pub fn days_are_counted_from_1970()
    ensures { CountsFrom1970 }
{}

/// Two dates with one day number are the same date.
pub fn a_day_number_has_one_date()
    ensures { NumbersOneDate }
{}

/// The instant that `parse_instant` reads of a text is spelled by the text; a text that it refuses with 11 spells a time out of
/// range, and one that it refuses with 10 spells none.
pub fn what_is_read_is_spelled()
    ensures { ReadsTheSpelled }
{}

/// Whatever text spells an instant, `parse_instant` reads it as that instant; of a time out of range it answers 11.
pub fn what_is_spelled_is_read()
    ensures { ReadsAllSpelled }
{}

/// What `print_instant` writes of an instant is read as that instant.
pub fn printed_instants_read_back()
    ensures { ReadsBack }
{}

/// The start of a union is the first of its times, and there is none where it has no time.
pub fn unions_start_at_their_first_time()
    ensures { StartsAtFirst }
{}

/// `Union::first_from` finds the first time of a union that isn't before the given one.
pub fn unions_have_a_first_time_from_each_time()
    ensures { FindsFirst }
{}
