//! Laws of what is turned away. They have no code: each is a theorem over the definitions, which a function's contract names.

ghost use Rattle.pfl_doors.specs.Laws.{RequestsAreTurnedAway, OthersAreTaken};

/// Of what begins as an HTTP request does (RFC 9112, section 3) nothing is taken, whichever its method and its target are, and however
/// long. What else is turned away begins with a word, one space and a slash, as no line of a session does and no comment, or with a
/// line of more than 512 bytes.
pub fn requests_are_turned_away()
    ensures all { RequestsAreTurnedAway }
    ensures only { OthersAreTaken }
{}
