// What the definitions of a signal file mean, for every exchange and every list of lines.
ghost use Rattle.exchange_model.specs.declared.exchange.Exchange.{Exchange};
ghost use Rattle.signal_file.specs.Lines.{FirstFaultyDecides};

/// The first faulty line decides: where the lines before it are right, its first fault is that of
/// the file, whatever stands behind it.
pub fn first_faulty_line_decides()
    ensures { (x : Exchange) → FirstFaultyDecides x }
{}
