//! Laws of what the server answers: each is the contract of a function that does nothing.
ghost use Rattle.coverage_server.specs.Asking.{HasOneAnswer};
ghost use Rattle.coverage_server.specs.Sessions.{Composes};
ghost use Rattle.coverage_server.specs.Tomlin.{TemplatesAreTomlins};

/// A text has at most one answer over a store.
pub fn one_answer()
    ensures { HasOneAnswer }
{}

/// Over the coverages of a catalogue, whose numbers have 64 bits, the answer to a template that asks for an operation
/// is the array of that operation, defined by sets of locations, or Overflow; unless the query of its text is refused.
pub fn templates_are_tomlins()
    ensures { TemplatesAreTomlins }
{}

/// Sessions one after the other on one disk are what one machine does that begins each without jobs.
pub fn sessions_compose()
    ensures { Composes }
{}
