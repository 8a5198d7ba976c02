// Numbered questions. A call asks its questions in a fixed order and is refused with the number of
// the first one that is answered no; specs/Asking.antt says this once for every call of the library.
#![tactic(auto)]
