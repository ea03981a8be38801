//! What holds of the texts, names and files of nonces themselves: each function's contract is a law, and its body is empty.

ghost use Rattle.lisp_store.specs.KeptFiles.{TextsSayNonces, FilesKeepNonces};
ghost use Rattle.lisp_store.specs.NonceLine.{TextsAreLines};
ghost use Rattle.lisp_store.specs.PairName.{NamesFindPairs, NamesAreOfOnePair, NamesHaveTheirForm};

/// The text of a nonce is 20 decimal digits whose value the nonce is, between `nonce ` and a line feed, and no other
/// text is.
pub fn nonce_line()
    ensures { TextsAreLines }
{}

/// A text is the name of the pair that is found by it, and where none is found of no pair.
pub fn names_find_pairs()
    ensures { NamesFindPairs }
{}

/// Two pairs don't share a name, so that each has a file of its own.
pub fn names_are_of_one_pair()
    ensures { NamesAreOfOnePair }
{}

/// The name of a pair has the form by which names are counted.
pub fn names_have_their_form()
    ensures { NamesHaveTheirForm }
{}

/// The content of a file says a nonce where it is its text, and no other content does.
pub fn texts_say_nonces()
    ensures { TextsSayNonces }
{}

/// What files keep for a pair is what the contents of the file of its name say.
pub fn files_keep_nonces()
    ensures { FilesKeepNonces }
{}
