ghost use Rattle.dr_requests.specs.Grammar.{ReadsAllSpelled, ReadsTheSpelled};

/// Whatever line the grammar of commands spells, [`request_in`](crate::request_in) reads it as what it asks for.
pub fn what_is_spelled_is_read()
    ensures { ReadsAllSpelled }
{}

/// What [`request_in`](crate::request_in) reads of a line is spelled by the line, by the grammar of commands.
pub fn what_is_read_is_spelled()
    ensures { ReadsTheSpelled }
{}
