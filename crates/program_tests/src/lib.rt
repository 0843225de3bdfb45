// Tests of whole programs, for what contracts do not state: the results with devices that fail;
// that jobs which may run in parallel do so when a gate holds them; and that a program with ample
// memory does not report that it is out of memory.
//
// The crate exports nothing. A crate with tests is proved twice, so these tests are not in the
// crate of the program.
#![tactic(auto)]

#[cfg(test)]
mod devices;
#[cfg(test)]
mod meetings;
#[cfg(test)]
mod rows;
#[cfg(test)]
mod steps;
#[cfg(test)]
mod whole;
