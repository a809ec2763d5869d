use plank_base::MARK_WORDS_PER_LOCATION;
use plank_bits::Bits;

const WORDS: usize = MARK_WORDS_PER_LOCATION as usize;

/// Facts of one method, by their numbers.
pub type FactSet = Bits<WORDS>;
