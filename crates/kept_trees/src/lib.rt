// What a tree keeps that is read from a text.
//
// What comes out: a definition, one line for each production of the grammar, of what each tree has
// whose tokens are those of a text: names that are names, numbers of 32 bits, and no deeper nesting
// than allowed. `laws` says that it has. The printer stands on it, and so do those who make an
// exchange of a tree. It has no code.
#![tactic(auto)]

pub mod laws;
