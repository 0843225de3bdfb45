// Theorems, stated as contracts: an answer exists.
ghost use Rattle.std.specs.Prelude.{List};
ghost use Rattle.plex_io.specs.Files.{Files};
ghost use Rattle.exchange_model.specs.declared.exchange.Exchange.{Exchange};
ghost use Rattle.exchange_model.specs.Kept.{IsExchange};
ghost use Rattle.source_meaning.specs.State.{State};
ghost use Rattle.block_change.specs.Carried.{IsCarried};
ghost use Rattle.command_words.specs.Words.{Word};
ghost use Rattle.answer_meaning.specs.Answer.{IsAnswer};
ghost use Rattle.answer_meaning.specs.declared.answer.Answer.{Answer};

/// A state of any exchange can be carried over to every exchange.
pub fn states_are_carried()
    ensures { (old new : Exchange) (before : State)
        → IsExchange new → (after : State) × IsCarried old new before after }
{}

/// For all arguments and files there is an answer, a status and a text. So what the program must
/// answer is defined for every command, including `analyse`, `certify`, a run with a certificate,
/// and `change`, whose definitions are not functions.
pub fn an_answer_comes()
    ensures { (words : List Word) (files : Files)
        → (answer : Answer) × IsAnswer words files answer }
{}
