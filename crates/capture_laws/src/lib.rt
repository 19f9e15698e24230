#![tactic(auto)]

// Laws without code: what becomes of a capture, line by line, that a reader of pieces finds just that, and that what is
// printed for the pieces, one after the other, is what is printed for the whole.
