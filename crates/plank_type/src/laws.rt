ghost use Rattle.plank_type.specs.Laws.{LimitsHold, HeadersAreLawful, MethodsAreLawful, TextsAreToldWhole};

/// A law of definitions: where the tree of a text shows too much of nothing, it is within each limit of
/// the tree. It does nothing.
pub fn limits_hold()
    ensures { LimitsHold }
{}

/// A law of definitions: the header of a well typed text within the limits is that of a program. It does
/// nothing.
pub fn headers_are_lawful()
    ensures { HeadersAreLawful }
{}

/// A law of definitions: the methods of a well typed text within the limits are those of a program. It
/// does nothing.
pub fn methods_are_lawful()
    ensures { MethodsAreLawful }
{}

/// A law of definitions: the program of a well typed text tells all of it. The definitions are total, and
/// say something of ill typed parts too; no part of a well typed text falls under that. It does nothing.
pub fn texts_are_told_whole()
    ensures { TextsAreToldWhole }
{}
