// The command's arguments.
use plex_io::Word;
use plex_num::{Memory, Seq};
use std::alloc::Global;
use std::env;
use std::io::ErrorKind;
use std::rt::Env;

/// The process's arguments without the program's name; `None` if one is not UTF-8.
pub fn words_of(rt: &(impl Env + AllocGlobal), alloc: Global) -> Result<Option<Vec<Word>>, Memory> {
    let mut words = Vec::new(alloc);
    let args = match env::args(rt) {
        Ok(args) => args,
        Err(error) if error.kind() == ErrorKind::OutOfMemory => return Err(Memory),
        Err(_) => return Ok(None),
    };
    for arg in args.skip(1) {
        let word = Seq::from_vec(arg.into_bytes());
        if words.push(word).is_err() {
            return Err(Memory);
        }
    }
    Ok(Some(words))
}
