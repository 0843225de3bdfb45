// What it means that the jobs of an entry only add to a variable or a field.
//
// What goes in: nothing, since it has definitions alone. What comes out: which statement adds to a
// variable or to a field of a plain file; of which of them an exchange's entry is known, by facts,
// to do nothing but that; and when words differ by an amount at these alone, and two runs of a job
// by their words alone. There is no code: what finds them, and what comes of them, stands above.
#![tactic(auto)]
