// What is proved of the definitions of clause texts alone: the laws of
// reading. A theorem is asked for where a contract names it, so they stand on
// a function, which itself does nothing. The worked examples of texts are
// definitions here; that they hold is proved with all others, in `histories`.
#![tactic(auto)]

ghost use Rattle.text_laws.specs.Laws.{NumberWordsAreDecimals, SoundTextsSayTheirClauses, WrittenIsRead, WrittenHasItsHead, RefusalLooksNoFurther, WordsStandInTheText, PlacesRise, EachClauseEndsAtItsZero, EachRefusalHasItsReason, HeadTellsTheLine};
ghost use Rattle.text_laws.specs.Telling.{EveryByteIsTold, PiecesFollow, CommentsAreLines};

pub fn laws_hold()
    ensures numbers { NumberWordsAreDecimals }
    ensures sound { SoundTextsSayTheirClauses }
    ensures read { WrittenIsRead }
    ensures head { WrittenHasItsHead }
    ensures further { RefusalLooksNoFurther }
{}

// Where words stand, which places are told, and why a text is refused.
pub fn refusals_hold()
    ensures stand { WordsStandInTheText }
    ensures rise { PlacesRise }
    ensures zeros { EachClauseEndsAtItsZero }
    ensures reasons { EachRefusalHasItsReason }
    ensures head { HeadTellsTheLine }
{}

// What a text's words and comments are.
pub fn pieces_hold()
    ensures told { EveryByteIsTold }
    ensures follow { PiecesFollow }
    ensures comments { CommentsAreLines }
{}
