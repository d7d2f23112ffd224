//! What a grammar means: which events its graphs derive, from position to position.
//!
//! There is no code here. `specs/Meaning.antt` says what a word derives over any *input*: the tokens
//! of a text, the readings of a sentence, the letters of one token. `specs/Texts.antt` has the input
//! of a text. `proofs/Renaming.antt` has the law that carries meaning from drawn graphs to compiled
//! ones: grammars that say the same derive the same, over any input, with contexts of both signs.
//! `proofs/Levels.antt` says at which level the negative contexts of a grammar are all told.
#![tactic(auto)]
