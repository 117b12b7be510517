//! The words of the command line.
use cli_shared::Detail;
use lsn_space::Word;
use std::env;
use std::io::ErrorKind;

/// The words of the command line, the program's name first. Words that aren't text are a faulty command line.
pub fn words_of(rt: &HostRuntime) -> Result<Vec<Word>, Detail> {
    let args = match env::args(rt) {
        Ok(args) => args,
        Err(error) if error.kind() == ErrorKind::OutOfMemory => return Err(Detail::NoMemory),
        Err(_) => return Err(Detail::Usage),
    };
    Word::each(rt.alloc(), args).map_err(|_| Detail::NoMemory)
}
