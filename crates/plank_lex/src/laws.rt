ghost use Rattle.plank_lex.specs.Parts.{TokensAreThoseOfParts, FaultsAreWherePartsStop};

/// A law of definitions: a list is the tokens of a text exactly where the text is parts one after
/// another, each a token or a gap and as long as it can be, and the list is their tokens with places
/// and one `End`.
pub fn tokens_are_those_of_parts()
    ensures { TokensAreThoseOfParts }
{}

/// A law of definitions: a text has no tokens exactly where such parts stop before its end, since no
/// token and no gap stands there; the fault's place is that byte's.
pub fn faults_are_where_parts_stop()
    ensures { FaultsAreWherePartsStop }
{}
