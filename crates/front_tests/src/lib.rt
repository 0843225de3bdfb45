// What no clause says of the devices and the printer: outside examples, real files and the real
// output, and each public call that may be refused memory run once with ample memory.
//
// A crate with tests is proved twice, so these tests stand here and not in the crates that they are
// of. Nothing comes out.
#![tactic(auto)]

#[cfg(test)]
mod again;
#[cfg(test)]
mod memory;
#[cfg(test)]
mod printed;
#[cfg(test)]
mod system;
