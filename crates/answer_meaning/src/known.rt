// An exchange with its directory of names.
ghost use Rattle.signal_file.specs.Rules.{IsDirectory};

use exchange_model::Exchange;
use signal_file::Directory;

/// An exchange, and the directory by which names are looked up. A command builds it once, from its
/// first file, and uses it for each further file that names signals and blocks.
#[derive(Drop)]
pub struct KnownExchange {
    pub exchange: Exchange,
    pub names: Directory,
    pub ghost named: { IsDirectory exchange names },
}
