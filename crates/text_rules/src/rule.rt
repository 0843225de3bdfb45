// The rules, each set in the order of the numbers that its rules are written with.
ghost use Rattle.std.specs.Prelude.{◌≡◌};
ghost use Rattle.text_rules.specs.Signals as signals;
ghost use Rattle.text_rules.specs.Blocks as blocks;
ghost use Rattle.text_rules.specs.Links as links;

/// A rule of signals and of names of blocks.
#[derive(Clone, Copy, Debug, PartialEq, Eq)]
pub enum SignalRule {
    /// 1: a name stands twice among signals with their answers, or among blocks.
    Once,
    /// 16: a signal carries more than eight values.
    FewValues,
}

/// A rule of a block.
#[derive(Clone, Copy, Debug, PartialEq, Eq)]
pub enum BlockRule {
    /// 1: a name is declared twice in the block.
    DeclaredTwice,
    /// 2: WIDTH is not 1 to 32.
    Width,
    /// 3: INIT is not below 2^WIDTH.
    Init,
    /// 4: SIZE is not 1 to 65,535.
    Size,
    /// 5: a block's 25th temporary.
    Temporaries,
    /// 6: a name is not declared, or not of the kind that is needed where it stands.
    WrongName,
    /// 7: a label is not declared in the block.
    NoLabel,
    /// 8: FOR FIRST names no plain file, or no field of it.
    NotSearched,
    /// 9: SEIZE or FREE names no forlopp file.
    NotHeld,
    /// 10: a signal is not declared, or not of a kind that stands there.
    WrongSignal,
    /// 11: the number of names or values after WITH is not the signal's DATA.
    WrongCount,
    /// 12: a combined SEND and the RETRIEVE of its answer do not stand together.
    Apart,
    /// 13: the 65th operand of one statement's own expressions.
    Operands,
    /// 14: NEW FORLOPP on a signal that is not single buffered.
    WrongFresh,
    /// 15: a number stands twice in the WHENs of one CASE.
    ChosenTwice,
    /// 17: the name after REFERENCE in an expression is no block.
    NoBlock,
}

/// A link rule, or the limits.
#[derive(Clone, Copy, Debug, PartialEq, Eq)]
pub enum LinkRule {
    /// 1: a signal is sent that no block receives.
    NoReceiver,
    /// 2: several blocks receive it, and there is no REFERENCE.
    NeedsReference,
    /// 3: the named block does not receive it, or there is no such block.
    NotReceived,
    /// 4: the block's survey does not send what it sends, or receive what it enters.
    NotInSurvey,
    /// 5: a block enters a signal twice.
    TwoEnters,
    /// 6: a block does not enter what it receives.
    NoEnter,
    /// 7: a limit is passed.
    Limit,
}

/// A rule of any phase.
#[derive(Clone, Copy, Debug, PartialEq, Eq)]
pub enum Rule {
    Signals(SignalRule),
    Blocks(BlockRule),
    Links(LinkRule),
}

impl SignalRule {
    /// The number that the rule is written with.
    pub fn number(self) -> u8
        ensures { result ≡ signals.number_of self }
    {
        match self {
            SignalRule::Once => 1,
            SignalRule::FewValues => 16,
        }
    }
}

impl BlockRule {
    /// The number that the rule is written with.
    pub fn number(self) -> u8
        ensures { result ≡ blocks.number_of self }
    {
        match self {
            BlockRule::DeclaredTwice => 1,
            BlockRule::Width => 2,
            BlockRule::Init => 3,
            BlockRule::Size => 4,
            BlockRule::Temporaries => 5,
            BlockRule::WrongName => 6,
            BlockRule::NoLabel => 7,
            BlockRule::NotSearched => 8,
            BlockRule::NotHeld => 9,
            BlockRule::WrongSignal => 10,
            BlockRule::WrongCount => 11,
            BlockRule::Apart => 12,
            BlockRule::Operands => 13,
            BlockRule::WrongFresh => 14,
            BlockRule::ChosenTwice => 15,
            BlockRule::NoBlock => 17,
        }
    }
}
